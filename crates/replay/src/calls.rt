// Which function makes which call.
use crate::call::Call;
use crate::request::Request;
use crate::response::{Answered, Response};
use crate::{
    clock_calls, committee_calls, committer_calls, linearizer_calls, manager_calls, status_calls,
    store_calls, type_calls,
};

// Makes the call of a number, and puts its values behind what stands in the response.
pub fn made(number: u64, q: Request, out: &mut Response) -> Answered {
    match Call::try_from(number)? {
        Call::AuthoritySetInsert => type_calls::insert(q, out),
        Call::AuthoritySetContains => type_calls::contains(q, out),
        Call::AuthoritySetCount => type_calls::count(q, out),
        Call::AuthoritySetNext => type_calls::next(q, out),
        Call::AuthoritySetClear => type_calls::clear(q, out),
        Call::BlockReferenceCmp => type_calls::cmp(q, out),
        Call::BlockReferenceEqual => type_calls::equal(q, out),
        Call::BlockReferenceParts => type_calls::parts(q, out),
        Call::CommitteeNew => committee_calls::new(q, out),
        Call::CommitteeLen => committee_calls::len(q, out),
        Call::CommitteeAuthorities => committee_calls::authorities(q, out),
        Call::CommitteeGetStake => committee_calls::get_stake(q, out),
        Call::CommitteeKnownAuthority => committee_calls::known_authority(q, out),
        Call::CommitteeThresholds => committee_calls::thresholds(q, out),
        Call::CommitteeIsValid => committee_calls::is_valid(q, out),
        Call::CommitteeIsQuorum => committee_calls::is_quorum(q, out),
        Call::CommitteeIsNonZero => committee_calls::is_non_zero(q, out),
        Call::CommitteeGetTotalStake => committee_calls::get_total_stake(q, out),
        Call::CommitteeElectLeader => committee_calls::elect_leader(q, out),
        Call::AggregatorAdd => committee_calls::add(q, out),
        Call::AggregatorClear => committee_calls::clear(q, out),
        Call::AggregatorVoters => committee_calls::voters(q, out),
        Call::ThresholdClockValid => clock_calls::valid(q, out),
        Call::ClockNew => clock_calls::new(q, out),
        Call::ClockAddBlock => clock_calls::add_block(q, out),
        Call::GetBlock => store_calls::get_block(q, out),
        Call::BlockExists => store_calls::block_exists(q, out),
        Call::BlockExistsAtAuthorityRound => store_calls::block_exists_at_authority_round(q, out),
        Call::AllBlocksExistsAtAuthorityRound => {
            store_calls::all_blocks_exists_at_authority_round(q, out)
        }
        Call::GetBlocksByRound => store_calls::get_blocks_by_round(q, out),
        Call::GetBlocksAtAuthorityRound => store_calls::get_blocks_at_authority_round(q, out),
        Call::GetOwnBlocks => store_calls::get_own_blocks(q, out),
        Call::GetOthersBlocks => store_calls::get_others_blocks(q, out),
        Call::LastOwnBlockRef => store_calls::last_own_block_ref(q, out),
        Call::LastSeenByAuthority => store_calls::last_seen_by_authority(q, out),
        Call::LenExpensive => store_calls::len_expensive(q, out),
        Call::HighestRound => store_calls::highest_round(q, out),
        Call::Includes => store_calls::includes(q, out),
        Call::Linked => store_calls::linked(q, out),
        Call::AddBlock => manager_calls::add(q, out),
        Call::MissingBlocks => manager_calls::missing(q, out),
        Call::LeaderStatus => status_calls::parts(q, out),
        Call::LeaderStatusIntoDecidedBlock => status_calls::into_decided_block(q, out),
        Call::LeaderStatusCmp => status_calls::cmp(q, out),
        Call::BaseDefaultOptions => committer_calls::default_options(out),
        Call::BaseElectLeader => committer_calls::elect(q, out),
        Call::TryDirectDecide => committer_calls::direct(q, out),
        Call::TryIndirectDecide => committer_calls::indirect(q, out),
        Call::GetLeaders => committer_calls::get_leaders(q, out),
        Call::TryCommit => committer_calls::try_commit(q, out),
        Call::HandleCommit => linearizer_calls::commit(q, out),
    }
}
