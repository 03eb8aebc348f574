ghost use Rattle.std.specs.Prelude.{◌≡◌, ◌+◌, [], ◌∷◌, ◌++◌, false, IfOk, OnOk};
ghost use Rattle.spec_sessions.specs.Sessions as session_states;
ghost use Rattle.server_parts.specs.StepStages as stages;

use crate::answers::{answer_entry, send_batches};
use crate::connections::Connections;
use ax_types::{Act, Entry, List, NoMemory, Packet};
use raft_node::RaftNode;
use sess_state::SessState;
use std::alloc::Global;

/// The entry of the next place is applied: what it sends is put behind the packets, its time and act behind the acts.
fn apply_entry(
    raft: &RaftNode,
    connections: &Connections,
    state: &mut SessState,
    place: u64,
    entry: &Entry,
    packets: &mut List<Packet>,
    acts: &mut List<(u64, Act)>,
) -> Result<(), NoMemory>
    requires next { place ≡ state.old.sessions.applied + 1 }
    requires fresh { state.old.is_spent ≡ false }
    ensures acts { OnOk result (acts.new ≡ acts.old ++ stages.act_at state.old.sessions place entry.now ∷ []) }
    ensures packets { OnOk result (packets.new ≡ packets.old ++ stages.sent_at raft.now connections.now state.old.sessions place entry.now) }
    ensures after { OnOk result (state.new ≡ record { sessions = session_states.applying state.old.sessions place entry.now; is_spent = false }) }
{
    let applied = state.apply(place, entry)?;
    answer_entry(raft, entry, applied.answer, packets)?;
    send_batches(raft, connections, applied.batches, packets)?;
    acts.push((entry.time, applied.act))
}

/// The places newly committed are applied in order (Ongaro 2014, 3.5): what they send is put behind the packets, and the time
/// and the act of each are given.
pub fn apply_all(
    alloc: Global,
    raft: &RaftNode,
    connections: &Connections,
    state: &mut SessState,
    packets: &mut List<Packet>,
) -> Result<List<(u64, Act)>, NoMemory>
    requires { state.old.is_spent ≡ false }
    ensures acts { IfOk result (λ acts. acts ≡ (stages.all_applied raft.now connections.now state.old.sessions).acts) }
    ensures packets { OnOk result (packets.new ≡ packets.old ++ (stages.all_applied raft.now connections.now state.old.sessions).packets) }
    ensures after { OnOk result (state.new ≡ record { sessions = (stages.all_applied raft.now connections.now state.old.sessions).state; is_spent = false }) }
{
    let mut acts = List::new(alloc);
    'places: for before in state.applied()..raft.commit() {
        let place = before + 1;
        let entry = raft.entry(place);
        apply_entry(raft, connections, state, place, entry, packets, &mut acts)?;
    }
    Ok(acts)
}
