//! Laws of every history.
#![tactic(auto)]

ghost use Rattle.law_history.specs.QueuePromise as queue_promise;

/// In each history, of each name, the k-th text that a poll took is the k-th text that was offered, which was offered at a
/// smaller place.
pub fn queues_hand_in_order()
    ensures { queue_promise.QueuesHandInOrder }
{}

/// In each history, where a poll found nothing, as many texts had been taken as offered.
pub fn polls_find_none()
    ensures { queue_promise.PollsFindNone }
{}
