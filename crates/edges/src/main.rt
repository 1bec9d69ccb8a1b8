// Runs every example of the rules paper that is not a line of its listing. Each call is a line: the call as the line program
// has it, an arrow, and what came of it with the requests last. A line that begins with # says what the calls below show.
// The stored output is what the second program says.
#![tactic(auto)]

mod build;
mod calls;
mod dead;
mod edges;
mod refusals;
mod say;
mod soundness;

use std::io;

fn main(rt: HostRuntime) -> io::Result<()> {
    edges::votes_and_quorums(&rt)?;
    edges::set_zero(&rt)?;
    edges::largest_version(&rt)?;
    edges::leftover_in_a_full_member(&rt)?;
    edges::removal_from_a_full_member(&rt)?;
    dead::counting_members(&rt)?;
    dead::one_members_neighbour(&rt)?;
    dead::version_from_entries_alone(&rt)?;
    dead::version_of_a_split_gap(&rt)?;
    dead::stale_predecessor(&rt)?;
    dead::stale_successor(&rt)?;
    soundness::quorum(&rt)?;
    soundness::places(&rt)?;
    soundness::members(&rt)?;
    refusals::creation(&rt)?;
    refusals::names(&rt)?;
    refusals::values(&rt)?;
    refusals::sets(&rt)?;
    refusals::eight_members(&rt)?;
    refusals::new_versions(&rt)?;
    refusals::room(&rt)?;
    refusals::version_before_room(&rt)?;
    Ok(())
}
