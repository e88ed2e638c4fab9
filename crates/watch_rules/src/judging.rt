ghost use Rattle.std.specs.Prelude.{◌≡◌};
ghost use Rattle.std.specs.List.{position};
ghost use Rattle.watch_rules.specs.Judging.{count_dead, count_living, is_missing, judged};

use crate::standing::Standing;

/// The index of the member that is to be the next that is dead, of a group of these members that has k data processes and
/// may lose m members: the first that was there once, isn't any more and isn't dead yet, where at least k others live, and
/// no more than m are dead with it.
pub fn next_dead(k: usize, m: usize, members: &[Standing]) -> Option<usize>
    ensures { result ≡ judged k m members.now }
{
    if k <= count_living(members) && count_dead(members) < m {
        first_missing(members)
    } else {
        None
    }
}

/// How many live: they are there, and not dead for ever.
pub fn count_living(members: &[Standing]) -> usize
    ensures { result ≡ count_living members.now }
{
    members.iter().filter(|member| member.is_living()).count()
}

/// How many are dead.
fn count_dead(members: &[Standing]) -> usize
    ensures { result ≡ count_dead members.now }
{
    members.iter().filter(|member| member.dead).count()
}

/// The index of the first that is missing.
fn first_missing(members: &[Standing]) -> Option<usize>
    ensures { result ≡ position is_missing members.now }
{
    members.iter().position(|member| member.is_missing())
}
