//! The worked rows as theorems: each function is empty, and its contract is what the definitions compute.
#![tactic(auto)]

ghost use Rattle.std.specs.Prelude.{◌≡◌, ℕ, true, false, pos, codes, Some, None, List, [], ◌∷◌};
ghost use Rattle.ax_types.specs.declared.entries.Act.TheVariants as act;
ghost use Rattle.ax_types.specs.declared.ids.End.TheVariants as end;
ghost use Rattle.ax_types.specs.declared.items.SkipReason.TheVariants as reason;
ghost use Rattle.ax_types.specs.declared.ops.LongOp.TheVariants as long;
ghost use Rattle.ax_types.specs.declared.ops.Op.TheVariants as op;
ghost use Rattle.ax_types.specs.declared.packets.Payload.TheVariants as payload;
ghost use Rattle.ax_types.specs.declared.replies.How.TheVariants as how;
ghost use Rattle.ax_types.specs.declared.replies.Reply.TheVariants as reply;
ghost use Rattle.spec_raft.specs.Log as logs;
ghost use Rattle.spec_raft.specs.Progress as progress;
ghost use Rattle.spec_cluster.specs.Bag as bags;
ghost use Rattle.spec_claims.specs.Payloads as payloads;
ghost use Rattle.spec_claims.specs.Transcript as transcripts;
ghost use Rattle.spec_run.specs.KeptStores as kept_stores;
ghost use Rattle.spec_run.specs.Run as runs;
ghost use Rattle.rows_run.specs.Halts as halts;
ghost use Rattle.rows_run.specs.Instances as instances;
ghost use Rattle.rows_run.specs.RaftRows as raft_rows;
ghost use Rattle.ax_types.specs.declared.steps.StepOutcome.TheVariants as outcome;
ghost use Rattle.rows_report.specs.ReportRows as report_rows;
ghost use Rattle.rows_run.specs.RowScripts as row_scripts;
ghost use Rattle.rows_run.specs.Commands as commands;
ghost use Rattle.rows_run.specs.Leaders as leaders;
ghost use Rattle.rows_run.specs.ReadRows as read_rows;
ghost use Rattle.rows_run.specs.Events as events;
ghost use Rattle.rows_run.specs.Kinds as kinds;

/// A command of one client on one node.
pub fn one_add()
    ensures { row_scripts.Shows (row_scripts.run_of_lines 1 1 1000 commands.one_add_lines) report_rows.one_add_items report_rows.one_add_history }
{}

/// Three commands whose packets arrive out of order: the gap is found, and they are sent again.
pub fn reordered()
    ensures { row_scripts.Shows (row_scripts.run_of_lines 1 1 1000 commands.reordered_lines) commands.reordered_items commands.reordered_history }
{}

/// A command whose packet is delivered again and again takes effect once.
pub fn repeated()
    ensures { row_scripts.Shows (row_scripts.run_of_lines 1 1 1000 commands.repeated_lines) commands.repeated_items commands.repeated_history }
{}

/// A reply that its client has is let go by a keep-alive, and a packet that comes late gets none.
pub fn trimmed()
    ensures { row_scripts.Shows (row_scripts.run_of_lines 1 1 1000 commands.trimmed_lines) commands.trimmed_items commands.trimmed_history }
{}

/// Sixty-four calls without an answer fill a session's window.
pub fn full_window()
    ensures { row_scripts.Shows (row_scripts.run_of_lines 1 1 1000 commands.full_window_lines) commands.full_window_items commands.full_window_history }
{}

/// A sum that is no i64 changes nothing.
pub fn overflow()
    ensures { row_scripts.Shows (row_scripts.run_of_lines 1 1 1000 commands.overflow_lines) commands.overflow_items commands.overflow_history }
{}

/// A command of another kind changes nothing.
pub fn wrong_kind()
    ensures { row_scripts.Shows (row_scripts.run_of_lines 1 1 1000 commands.wrong_kind_lines) commands.wrong_kind_items commands.wrong_kind_history }
{}

/// A session is closed once nothing is unanswered, and a later call is unsent.
pub fn closed()
    ensures { row_scripts.Shows (row_scripts.run_of_lines 1 1 1000 commands.closed_lines) commands.closed_items commands.closed_history }
{}

/// A session expires with calls under way: they are in doubt, and a later call is unsent.
pub fn doubt()
    ensures { row_scripts.Shows (row_scripts.run_of_lines 1 1 1000 commands.doubt_lines) report_rows.doubt_items report_rows.doubt_history }
{}

/// A leader is lost after it committed a command: the next one has it, and answers its client.
pub fn leader_lost()
    ensures { row_scripts.Shows (row_scripts.run_of_lines 3 2 1000 leaders.leader_lost_lines) report_rows.leader_lost_items report_rows.leader_lost_history }
{}

/// A leader is lost before it committed a command: the next one lacks it, and gets it again.
pub fn uncommitted()
    ensures { row_scripts.Shows (row_scripts.run_of_lines 3 2 1000 leaders.uncommitted_lines) leaders.uncommitted_items leaders.uncommitted_history }
{}

/// A leader that is cut off from the majority commits nothing.
pub fn cut_off()
    ensures { row_scripts.Shows (row_scripts.run_of_lines 3 2 1000 leaders.cut_off_lines) leaders.cut_off_items leaders.cut_off_history }
{}

/// The same with one client that is connected to it from the start.
pub fn cut_off_alone()
    ensures { row_scripts.Shows (row_scripts.run_of_lines 3 1 1000 leaders.cut_off_alone_lines) leaders.cut_off_alone_items leaders.cut_off_alone_history }
{}

/// A store fails while a follower adds an entry: the node halts, and catches up after a start.
pub fn store_failed()
    ensures { row_scripts.Shows (row_scripts.run_with 3 2 1000 ((20, outcome.Failed 0) ∷ []) leaders.store_failed_lines) leaders.store_failed_items leaders.store_failed_history }
{}

/// Steps that cannot be done are skipped, each for its first reason.
pub fn skipped()
    ensures { row_scripts.Shows (row_scripts.run_of_lines 1 1 1000 leaders.skipped_lines) leaders.skipped_items leaders.skipped_history }
{}

/// A packet that comes in part is ignored, and sent again.
pub fn short_packet()
    ensures { row_scripts.Shows (row_scripts.run_of_lines 1 1 1000 leaders.short_packet_lines) leaders.short_packet_items leaders.short_packet_history }
{}

/// A command with all but the last byte of its spelling is ignored.
pub fn one_byte_short()
    ensures { row_scripts.Shows (row_scripts.run_of_lines 1 1 1000 leaders.one_byte_short_lines) leaders.one_byte_short_items leaders.one_byte_short_history }
{}

/// A command with all bytes of its spelling is taken.
pub fn no_byte_short()
    ensures { row_scripts.Shows (row_scripts.run_of_lines 1 1 1000 leaders.no_byte_short_lines) leaders.no_byte_short_items leaders.no_byte_short_history }
{}

/// A linearizable read behind the command that was called before it.
pub fn put_and_read()
    ensures { row_scripts.Shows (row_scripts.run_of_lines 3 2 1000 read_rows.put_and_read_lines) read_rows.put_and_read_items read_rows.put_and_read_history }
{}

/// A sequential read waits until a server that lags has what its session saw.
pub fn lagging()
    ensures { row_scripts.Shows (row_scripts.run_of_lines 3 2 1000 read_rows.lagging_lines) read_rows.lagging_items read_rows.lagging_history }
{}

/// A read whose answer was lost is asked again at another server, and waits there.
pub fn asked_again()
    ensures { row_scripts.Shows (row_scripts.run_of_lines 3 2 1000 read_rows.asked_again_lines) read_rows.asked_again_items read_rows.asked_again_history }
{}

/// A linearizable read at a deposed leader gets no answer there, and one from the new leader.
pub fn deposed()
    ensures { row_scripts.Shows (row_scripts.run_of_lines 3 2 1000 read_rows.deposed_lines) read_rows.deposed_items read_rows.deposed_history }
{}

/// A linearizable read on one node is ready at once.
pub fn read_alone()
    ensures { row_scripts.Shows (row_scripts.run_of_lines 1 1 1000 read_rows.read_alone_lines) read_rows.read_alone_items read_rows.read_alone_history }
{}

/// An answer that is older than the last read is dropped, and its query is asked again.
pub fn older_answer()
    ensures { row_scripts.Shows (row_scripts.run_of_lines 1 2 1000 read_rows.older_answer_lines) read_rows.older_answer_items read_rows.older_answer_history }
{}

/// A linearizable read at a deposed leader that is cut off has no outcome.
pub fn read_cut_off()
    ensures { row_scripts.Shows (row_scripts.run_of_lines 3 1 1000 read_rows.read_cut_off_lines) read_rows.read_cut_off_items read_rows.read_cut_off_history }
{}

/// A lock passes on when its holder's session expires, and its event comes before the read that names it.
pub fn lock_expired()
    ensures { row_scripts.Shows (row_scripts.run_of_lines 1 2 1000 events.lock_expired_lines) events.lock_expired_items events.lock_expired_history }
{}

/// A batch of events is lost: the one after it is refused, and both come again.
pub fn lost_batch()
    ensures { row_scripts.Shows (row_scripts.run_of_lines 1 2 1000 events.lost_batch_lines) report_rows.lost_batch_items report_rows.lost_batch_history }
{}

/// A watch shows what it holds directly below the event.
pub fn watched()
    ensures { row_scripts.Shows (row_scripts.run_of_lines 1 2 1000 events.watched_lines) events.watched_items events.watched_history }
{}

/// A session expires when its last sign is the timeout ago, and not before.
pub fn boundary()
    ensures { row_scripts.Shows (row_scripts.run_of_lines 3 2 1000 events.boundary_lines) events.boundary_items events.boundary_history }
{}

/// A group whose leader leaves and joins again is led by its earliest member.
pub fn group()
    ensures { row_scripts.Shows (row_scripts.run_of_lines 1 2 1000 events.group_lines) report_rows.group_items report_rows.group_history }
{}

/// An entry with a life goes at the first place whose time is its end.
pub fn entry_life()
    ensures { row_scripts.Shows (row_scripts.run_of_lines 1 2 1000 kinds.entry_life_lines) kinds.entry_life_items kinds.entry_life_history }
{}

/// An entry that is put again without a life stays.
pub fn life_lifted()
    ensures { row_scripts.Shows (row_scripts.run_of_lines 1 1 1000 kinds.life_lifted_lines) kinds.life_lifted_items kinds.life_lifted_history }
{}

/// Equal offers are two, and each is taken once.
pub fn queue()
    ensures { row_scripts.Shows (row_scripts.run_of_lines 1 2 1000 kinds.queue_lines) kinds.queue_items kinds.queue_history }
{}

/// A message goes to those who subscribe when it is published.
pub fn topic()
    ensures { row_scripts.Shows (row_scripts.run_of_lines 1 2 1000 kinds.topic_lines) kinds.topic_items kinds.topic_history }
{}

/// A lock that is tried, a map under the name of a lock, and the lock let go.
pub fn lock_and_map()
    ensures { row_scripts.Shows (row_scripts.run_of_lines 1 1 1000 kinds.lock_and_map_lines) kinds.lock_and_map_items kinds.lock_and_map_history }
{}

/// A value that is set, changed where it is as expected, and cleared.
pub fn value_changes()
    ensures { row_scripts.Shows (row_scripts.run_of_lines 1 1 1000 kinds.value_changes_lines) kinds.value_changes_items kinds.value_changes_history }
{}

/// The round of an earlier term, acked late, confirms no read of a later one.
pub fn late_round()
    ensures { row_scripts.Shows (row_scripts.run_of_lines 3 1 1000 halts.late_round_lines) halts.late_round_items halts.late_round_history }
{}

/// A store fails in an election and keeps its entry: the term has an entry and no leader.
pub fn blank_kept()
    ensures { row_scripts.Shows (row_scripts.run_with 1 1 1000 halts.blank_kept_faults halts.blank_kept_lines) halts.blank_kept_items halts.blank_kept_history }
{}

/// A store fails and keeps a command: it takes effect once the node leads again, and is answered when it is sent again.
pub fn command_kept()
    ensures { row_scripts.Shows (row_scripts.run_with 1 1 1000 halts.command_kept_faults halts.command_kept_lines) halts.command_kept_items halts.command_kept_history }
{}

/// A store keeps a part of the entries that a follower adds: the rest comes after a start.
pub fn part_kept()
    ensures { row_scripts.Shows (row_scripts.run_with 3 1 1000 halts.part_kept_faults halts.part_kept_lines) halts.part_kept_items halts.part_kept_history }
{}

/// A query that was called first shows a later place than the command called after it.
pub fn response_order()
    ensures { row_scripts.Shows (row_scripts.run_of_lines 1 1 1000 halts.response_order_lines) halts.response_order_items halts.response_order_history }
{}

/// A log with terms 1, 1, 2 against other logs, each by its last term and last place.
pub fn up_to_date()
    ensures later_place { logs.newer_or_equal (raft_rows.blanks (1 ∷ 1 ∷ 2 ∷ [])) 2 3 ≡ true }
    ensures earlier_place { logs.newer_or_equal (raft_rows.blanks (1 ∷ 1 ∷ 2 ∷ [])) 2 2 ≡ false }
    ensures earlier_term { logs.newer_or_equal (raft_rows.blanks (1 ∷ 1 ∷ 2 ∷ [])) 1 9 ≡ false }
    ensures later_term { logs.newer_or_equal (raft_rows.blanks (1 ∷ 1 ∷ 2 ∷ [])) 3 1 ≡ true }
{}

/// The same log, to which entries of terms 1 and 3 are sent for the places after 1: the last entry is cut.
pub fn cut_in_conflict()
    ensures change { logs.change_of (raft_rows.blanks (1 ∷ 1 ∷ 2 ∷ [])) 1 (raft_rows.blanks (1 ∷ 3 ∷ [])) ≡ record { cut = Some 3; added = 1 } }
    ensures log { raft_rows.terms_of (logs.cut_and_added (raft_rows.blanks (1 ∷ 1 ∷ 2 ∷ [])) 1 (raft_rows.blanks (1 ∷ 3 ∷ []))) ≡ 1 ∷ 1 ∷ 3 ∷ [] }
{}

/// The same log, to which only what it has is sent: nothing is cut.
pub fn nothing_in_conflict()
    ensures change { logs.change_of (raft_rows.blanks (1 ∷ 1 ∷ 2 ∷ [])) 1 (raft_rows.blanks (1 ∷ [])) ≡ record { cut = None; added = 0 } }
    ensures log { raft_rows.terms_of (logs.cut_and_added (raft_rows.blanks (1 ∷ 1 ∷ 2 ∷ [])) 1 (raft_rows.blanks (1 ∷ []))) ≡ 1 ∷ 1 ∷ 2 ∷ [] }
{}

/// A leader of term 2, whose last entry two of three nodes hold, commits an entry of its own term alone.
pub fn own_term_commits()
    ensures own { progress.commit_place (raft_rows.two_peers 2 0) (raft_rows.blanks (1 ∷ 2 ∷ [])) 2 0 ≡ 2 }
    ensures earlier { progress.commit_place (raft_rows.two_peers 2 0) (raft_rows.blanks (1 ∷ 1 ∷ [])) 2 0 ≡ 0 }
{}

/// Beyond 256 reads that wait none is taken.
pub fn reads_are_full()
    ensures room { progress.has_read_room raft_rows.full_reads ≡ false }
    ensures unchanged { progress.with_read raft_rows.full_reads 257 1 1 ≡ raft_rows.full_reads }
{}

/// Of 16,385 packets the first is gone; a link that is cut holds a packet back, and it can be dropped all the same.
pub fn oldest_packet_gone()
    ensures gone { bags.take_refusal raft_rows.full_bag (1 ∷ 2 ∷ []) 1 ≡ Some reason.Gone }
    ensures kept { bags.take_refusal raft_rows.full_bag (1 ∷ 2 ∷ []) 2 ≡ None }
    ensures never { bags.take_refusal raft_rows.full_bag (1 ∷ 2 ∷ []) 16386 ≡ Some reason.NeverSent }
    ensures none { bags.take_refusal raft_rows.full_bag (1 ∷ 2 ∷ []) 0 ≡ Some reason.NeverSent }
    ensures cut { bags.take_refusal (bags.with_cut raft_rows.full_bag (end.Node 2) (end.Node 1)) (1 ∷ 2 ∷ []) 3 ≡ Some reason.Cut }
    ensures marked { bags.mark_refusal (bags.with_cut raft_rows.full_bag (end.Node 2) (end.Node 1)) 3 ≡ None }
{}

/// An entry that no majority held is lost with its leader, and the same body is taken again by the next one.
pub fn entry_replaced()
    ensures before { raft_rows.terms_at raft_rows.first_leader 1 ≡ 1 ∷ 1 ∷ 1 ∷ [] }
    ensures committed { raft_rows.terms_of raft_rows.both_leaders.committed ≡ 1 ∷ 1 ∷ 2 ∷ 2 ∷ [] }
    ensures replaced { raft_rows.terms_at raft_rows.both_leaders 1 ≡ 1 ∷ 1 ∷ 2 ∷ 2 ∷ [] }
{}

/// A session from its registration to its expiry: each entry's act and answer.
pub fn session_table()
    ensures { raft_rows.of_one_session
        ≡ (act.Nothing, None)
        ∷ (act.Open 1 1, Some (1, payload.Opened 1 2))
        ∷ (act.Do 2 (codes "c") (op.Long (long.Add (pos 5))), Some (1, payload.Reply 2 1 3 0 (reply.Number (pos 5))))
        ∷ (act.Nothing, Some (1, payload.Gap 2 1))
        ∷ (act.Nothing, Some (1, payload.Reply 2 1 3 0 (reply.Number (pos 5))))
        ∷ (act.Keep 2, None)
        ∷ (act.Nothing, None)
        ∷ (act.Nothing, None)
        ∷ (act.Expire 2, None)
        ∷ (act.Nothing, Some (1, payload.Ended 2 9 how.Expired))
        ∷ [] }
{}

/// The steps of a run are those of its script, and the stores may have fared so in each.
pub fn steps_unfold()
    ensures { runs.Unfolds instances.one_world instances.works instances.steps }
{}

/// What the store keeps is what the run leaves there.
pub fn stores_hold()
    ensures { kept_stores.AreContents (runs.run 1 1 1000 instances.steps).world.hosts instances.contents }
{}

/// A majority of the stores keeps the history of the run.
pub fn history_is_kept()
    ensures { kept_stores.IsKept instances.contents instances.history }
{}

/// The newest log of each majority of the stores begins with the history of the run.
pub fn history_is_left()
    ensures { kept_stores.IsLeft instances.contents instances.history 1000 }
{}

/// What the answer's packet tells the client is true.
pub fn answer_is_true()
    ensures { payloads.IsTruePayload (transcripts.transcript (runs.run 1 1 1000 instances.steps).shown) instances.history 1 instances.answer }
{}
