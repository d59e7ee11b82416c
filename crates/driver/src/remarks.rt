//! What is told beside a run: how much ran, which option goes on, and why it is stuck or wrong.

ghost use Rattle.std.specs.Prelude.{◌≡◌, [], ◌∷◌, ◌++◌, ◌==◌, All, if◌then◌else◌};
ghost use Rattle.driver.specs.RunCommand.{IsRunRemark, count_text, more_hint, more_text};
ghost use Rattle.host.specs.Requests.{TellsBeside};
ghost use Rattle.text.specs.Shown.{IsShown};

use host::Complaints;
use text::Page;

/// How much of a run there was, in words or steps, of how much that was asked for, and whether that is told.
#[derive(Clone, Copy)]
pub(crate) struct Spent {
    pub(crate) unit: &'static str,
    pub(crate) count: u64,
    pub(crate) most: u64,
    pub(crate) counts: bool,
}

/// Returns how to go on, where an option can ask for more.
fn more_hint(most: u64) -> &'static str
    ensures { result.now ≡ more_hint most }
{
    if most < 4294967295 {
        ": --steps 4294967295 goes on"
    } else {
        ""
    }
}

/// Tells how much there was of a run, if that is asked for.
fn tell_count<E: Complaints>(err: &mut E, spent: Spent)
    ensures { TellsBeside E.tells err.old
        (λ told. told ≡ (if spent.counts then (count_text spent.unit.now spent.count ++ 10 ∷ []) ∷ [] else [])) err.new }
{
    if spent.counts {
        err.line(&format_args!("{} {}", spent.unit, spent.count));
    }
}

/// Tells which option goes on, after the end `more`.
fn tell_more<E: Complaints>(err: &mut E, spent: Spent, status: u8)
    ensures { TellsBeside E.tells err.old
        (λ told. told ≡ (if status == 4 then (more_text spent.unit.now spent.most ++ 10 ∷ []) ∷ [] else [])) err.new }
{
    if status == 4 {
        let Spent { unit, most, .. } = spent;
        let hint = more_hint(most);
        err.line(&format_args!("more: the {most} {unit} of --steps are used up{hint}"));
    }
}

/// Tells the lines, if there are some.
pub(crate) fn tell_page<E: Complaints>(err: &mut E, page: Option<Page>)
    ensures { TellsBeside E.tells err.old (All (All IsShown)) err.new }
{
    if let Some(page) = page {
        err.bytes(page.bytes());
    }
}

/// Tells why a run is stuck or wrong.
fn tell_reason<E: Complaints>(err: &mut E, status: u8, page: Option<Page>)
    ensures { TellsBeside E.tells err.old (λ told. All (All IsShown) told × ((status ≡ 3 → ⊥) → told ≡ [])) err.new }
{
    if status == 3 {
        tell_page(err, page);
    }
}

/// Tells what stands beside a run that ended by this status: `page` is why it is stuck or wrong.
pub(crate) fn tell_run<E: Complaints>(err: &mut E, spent: Spent, status: u8, page: Option<Page>)
    ensures { TellsBeside E.tells err.old (IsRunRemark spent.unit.now spent.count spent.most spent.counts status) err.new }
{
    tell_count(err, spent);
    tell_more(err, spent, status);
    tell_reason(err, status, page);
}
