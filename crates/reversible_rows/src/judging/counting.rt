//! Counts rows by kind and by claim.

ghost use Rattle.std.specs.Prelude.{◌≡◌, count_by};
ghost use Rattle.desk_rows.specs.declared.row.Row.TheVariants.{Member as MemberRow};
ghost use Rattle.reversible_rows.specs.inner.Tests.{passes};

use desk_rows::{Claim, Kind, Member, Placed, Row};

/// The test by which rows are counted.
#[derive(Clone, Copy)]
pub(crate) enum Test {
    IsOf(Kind),
    Makes(Claim),
}

impl Test {
    fn passes(&self, row: &Row) -> bool
        ensures { result ≡ passes self.now row.now }
    {
        match self {
            Test::IsOf(kind) => row.is_of(*kind),
            Test::Makes(claim) => row.makes(claim),
        }
    }
}

pub(crate) fn count_rows(rows: &[Row], test: &Test) -> usize
    ensures { result ≡ count_by (passes test.now) rows.now }
{
    rows.iter().filter(|row| test.passes(row)).count()
}

pub(crate) fn count_members(members: &[Member], test: &Test) -> usize
    ensures { result ≡ count_by (λ m. passes test.now (MemberRow m)) members.now }
{
    members
        .iter()
        .filter(|member| test.passes(&Row::Member(**member)))
        .count()
}

pub(crate) fn count_placed(placed: &[Placed], test: &Test) -> usize
    ensures { result ≡ count_by (λ p. passes test.now (MemberRow p.row)) placed.now }
{
    placed
        .iter()
        .filter(|one| test.passes(&Row::Member(one.row)))
        .count()
}
