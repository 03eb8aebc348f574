ghost use Rattle.std.specs.Prelude.{◌≡◌};

use crate::{NoMemory, ReportWhy, WindowCall};
use thiserror::Error;

/// Why the network gives no packet of a number.
#[derive(Clone, Copy, Debug, Error)]
pub enum TakeRefused {
    #[error("no packet of this number was sent yet")]
    NeverSent,
    /// It is older than the packets that are kept.
    #[error("the packet is no longer kept")]
    Gone,
    #[error("the link between sender and receiver is cut")]
    Cut,
    #[error("the receiver is down")]
    Down,
}

/// Why the gate does not hold a query.
#[derive(Clone, Copy, Debug, Error)]
pub enum HoldRefused {
    #[error("the gate holds as many queries as it may, and this one was dropped")]
    Dropped,
    #[error("no memory")]
    NoMemory,
}

impl From<NoMemory> for HoldRefused {
    ghost use Rattle.ax_types.specs.declared.refusals.HoldRefused.TheVariants as refused;

    ghost from_gives = { λ _ e. e ≡ refused.NoMemory };

    fn from(_error: NoMemory) -> HoldRefused {
        HoldRefused::NoMemory
    }
}

/// Why a client does not do what it is asked.
#[derive(Clone, Copy, Debug, Error)]
pub enum ClientRefused {
    #[error("the client has a session, or is opening one")]
    SessionOpen,
    #[error("the client has no session that takes this")]
    NoSession,
    #[error("as many calls are unanswered as a session may have")]
    WindowFull,
    #[error("{unanswered} calls of the session are unanswered")]
    Busy { unanswered: u64 },
    #[error("no memory")]
    NoMemory,
}

impl From<NoMemory> for ClientRefused {
    ghost use Rattle.ax_types.specs.declared.refusals.ClientRefused.TheVariants as refused;

    ghost from_gives = { λ _ e. e ≡ refused.NoMemory };

    fn from(_error: NoMemory) -> ClientRefused {
        ClientRefused::NoMemory
    }
}

/// Why the call window gave a call no number. Each hands the call back.
#[derive(Drop, Error)]
#[derive_where(Debug)]
pub enum SubmitRefused {
    /// `next` was as many above `base` as the window has places.
    #[error("the window is full: next is {next} and base {base}")]
    Full {
        next: u64,
        base: u64,
        #[derive_where(skip)]
        call: WindowCall,
    },
    /// Another caller drew the number `seen`: the draw found `found`.
    #[error("another caller drew number {seen}: next is {found}")]
    Lost {
        seen: u64,
        found: u64,
        #[derive_where(skip)]
        call: WindowCall,
    },
    /// `next` is the last number.
    #[error("the window has given all of its numbers: next is {next}")]
    Spent {
        next: u64,
        #[derive_where(skip)]
        call: WindowCall,
    },
}

/// A call of the window has no outcome yet: its state word was `found`.
#[derive(Clone, Copy, Debug, Error)]
#[error("no outcome yet: the state of the place is {found}")]
pub struct Pending {
    pub found: u64,
}

/// The window has no next call: the state word of its place was `found`.
#[derive(Clone, Copy, Debug, Error)]
#[error("no call yet: the state of the place is {found}")]
pub struct Empty {
    pub found: u64,
}

/// Why a node's store did not do what it was asked.
#[derive(Clone, Copy, Debug, Error)]
pub enum StoreError {
    #[error("the store failed")]
    Failed,
    /// `at` is the offset of the first byte that belongs to no whole record that may stand there.
    #[error("no journal: byte {at} belongs to no record")]
    Bad { at: u64 },
    #[error("no memory")]
    NoMemory,
}

impl From<NoMemory> for StoreError {
    ghost use Rattle.ax_types.specs.declared.refusals.StoreError.TheVariants as store;

    ghost from_gives = { λ _ e. e ≡ store.NoMemory };

    fn from(_error: NoMemory) -> StoreError {
        StoreError::NoMemory
    }
}

/// Why a keeper of bytes did not do what it was asked.
#[derive(Clone, Copy, Debug, Error)]
pub enum KeeperError {
    #[error("the keeper failed")]
    Failed,
    #[error("no memory")]
    NoMemory,
}

impl From<NoMemory> for KeeperError {
    ghost use Rattle.ax_types.specs.declared.refusals.KeeperError.TheVariants as keeper;

    ghost from_gives = { λ _ e. e ≡ keeper.NoMemory };

    fn from(_error: NoMemory) -> KeeperError {
        KeeperError::NoMemory
    }
}

impl From<KeeperError> for StoreError {
    ghost use Rattle.ax_types.specs.declared.refusals.StoreError.TheVariants as store;
    ghost use Rattle.ax_types.specs.declared.refusals.KeeperError.TheVariants as keeper;

    ghost from_gives = { elim [ keeper.Failed ↦ λ e. e ≡ store.Failed | keeper.NoMemory ↦ λ e. e ≡ store.NoMemory ] };

    fn from(error: KeeperError) -> StoreError {
        match error {
            KeeperError::Failed => StoreError::Failed,
            KeeperError::NoMemory => StoreError::NoMemory,
        }
    }
}

/// Why bytes were not read as a report.
#[derive(Clone, Copy, Debug, Error)]
pub enum ReportRefused {
    #[error("no report: {why}")]
    NotReport { why: ReportWhy },
    #[error("no memory")]
    NoMemory,
}

impl From<NoMemory> for ReportRefused {
    ghost use Rattle.ax_types.specs.declared.refusals.ReportRefused.TheVariants as refused;

    ghost from_gives = { λ _ e. e ≡ refused.NoMemory };

    fn from(_error: NoMemory) -> ReportRefused {
        ReportRefused::NoMemory
    }
}
