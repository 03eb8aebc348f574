ghost use Rattle.std.specs.Prelude.{◌≡◌, ℕ, ◌++◌, ◌∷◌, [], map, IfOk, OnOk, OnErr};
ghost use Rattle.ax_types.specs.declared.items.Item.TheVariants as item;
ghost use Rattle.spec_client.specs.Clients as clients;
ghost use Rattle.spec_client.specs.Receipts as receipts;
ghost use Rattle.cli_session.specs.Numbered as numbered;
ghost use Rattle.cli_session.specs.GivingOut as giving;

use crate::parts::Parts;
use crate::requests::Request;
use ax_types::{ClientOut, Got, How, Item, List, NoMemory, NodeId, Payload};
use std::alloc::Global;
use std::collections::VecDeque;

/// An answer is given out with the first request that is left, after other items.
fn give_one(
    requests: &mut VecDeque<Request>,
    session: u64,
    items: &mut Vec<Item>,
    item: (u64, Got),
) -> Result<(), NoMemory>
    ensures items { OnOk result (items.new.items ≡ items.old.items ++ giving.given_out session (item ∷ []) requests.old.items) }
    ensures left { OnOk result (requests.new.items ≡ giving.requests_after (item ∷ []) requests.old.items) }
{
    if let Some(request) = requests.pop_front() {
        items.push(request.answer_item(session, item.1))?;
    }
    Ok(())
}

/// Answers are given out, each with the first request that is left, after other items.
fn give_out(
    requests: &mut VecDeque<Request>,
    session: u64,
    items: &mut Vec<Item>,
    answers: List<(u64, Got)>,
) -> Result<(), NoMemory>
    ensures items { OnOk result (items.new.items ≡ items.old.items ++ giving.given_out session answers requests.old.items) }
    ensures left { OnOk result (requests.new.items ≡ giving.requests_after answers requests.old.items) }
{
    items.reserve(answers.len())?;
    'answers: for answer in answers.into_vec() {
        give_one(requests, session, items, answer)?;
    }
    Ok(())
}

impl Parts {
    #[tactic(auto, using(crate::proofs::Release::gives_releases))]
    /// Answers are given out in order of call, after other items, and a query is asked again.
    pub fn release(&mut self, first: Vec<Item>) -> Result<ClientOut, NoMemory>
        requires { numbered.IsSound self.old.client }
        ensures ok { IfOk result (λ out. out ≡ (receipts.releases self.old.client first.items).out) }
        ensures after { OnOk result (self.new.client ≡ (receipts.releases self.old.client first.items).client) }
        ensures moves { self.new.moves ≡ self.old.moves }
    {
        self.give(first)
    }

    /// The same, each answer with the first request that is left.
    fn give(&mut self, first: Vec<Item>) -> Result<ClientOut, NoMemory>
        ensures ok { IfOk result (λ out. out ≡ (giving.gives self.old.client first.items).out) }
        ensures after { OnOk result (self.new.client ≡ (giving.gives self.old.client first.items).client) }
        ensures moves { self.new.moves ≡ self.old.moves }
    {
        let released = self.sequencer.release()?;
        let session = self.session();
        let mut items = first;
        give_out(&mut self.requests, session, &mut items, released.items)?;
        let sends = self.ask_again(released.again)?;
        Ok(ClientOut {
            items: List::from_vec(items),
            sends,
        })
    }

    #[tactic(auto, using(crate::proofs::Refused::to_server_none))]
    /// The query that is asked again.
    fn ask_again(&self, again: Option<u64>) -> Result<List<(NodeId, Payload)>, NoMemory>
        ensures { IfOk result (λ sends. sends ≡ clients.to_server self.now.client (receipts.asked_again self.now.client again)) }
    {
        let Some(number) = again else {
            return Ok(List::new(self.alloc));
        };
        match self.request(number) {
            Some(request) => self.send(self.payload_of(request)?),
            None => Ok(List::new(self.alloc)),
        }
    }

    /// The end of the session, and what becomes of the calls without an outcome.
    pub fn end_items(&self, session: u64, place: u64, how: How) -> Result<Vec<Item>, NoMemory>
        ensures { IfOk result (λ items. items.items ≡ item.Ended session place how ∷ map (giving.item_at_end session) self.now.client.requests) }
    {
        let mut items = Vec::with_capacity(self.alloc, self.requests.len() + 1)?;
        items.push(Item::Ended {
            session,
            place,
            how,
        })?;
        'requests: for request in self.requests.iter() {
            items.push(request.item_at_end(session))?;
        }
        Ok(items)
    }
}
