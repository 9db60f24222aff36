//! A log of orders, as an issuer sees it.
ghost use Rattle.std.specs.Prelude.{◌≡◌, ◌++◌, [], ◌∷◌, List, OnOk};
ghost use Rattle.iso_order.specs.Order.{Instruction};
ghost use Rattle.iso_durable.specs.Front.{LeavesFront};

use iso_order::{Answer, Order};
use thiserror::Error;

/// The log failed. Nothing more may be asked of it until it is opened again.
#[derive(Clone, Copy, Debug, PartialEq, Eq, Drop, Error)]
#[error("the log failed")]
pub struct LogFailed;

/// A log of orders. A crash keeps the orders that are synced, and of those behind them some from the front: it may cut
/// them off anywhere, and what is torn counts as not there.
pub trait Log {
    /// It was opened well and no call has failed since. A premise, and no test: no code can tell whether the disk lied
    /// when the log was opened.
    ghost is_ready: { Self → Type 0 };

    /// The orders that each crash keeps.
    ghost synced: { Self → List Instruction };

    /// The orders behind them, which wait for a sync.
    ghost pending: { Self → List Instruction };

    /// The orders that a start may find after a crash at this moment.
    ghost may_leave: { Self → List Instruction → Type 0 };

    /// Adds an order with its answer, which then waits for a sync.
    fn append(&mut self, order: Order, answer: Answer) -> Result<(), LogFailed>
        // After a call that succeeds, a log that was ready still is.
        ensures ready { OnOk result (is_ready self.old → is_ready self.new) }
        // At `Ok` the synced orders are those of before.
        ensures synced { OnOk result (is_ready self.old → synced self.new ≡ synced self.old) }
        // At `Ok` the order waits behind the others.
        ensures pending { OnOk result (is_ready self.old
            → pending self.new ≡ pending self.old ++ order ∷ []) }
        // However it ends, a crash leaves the synced orders, and of those behind them, this one
        // too, some from the front.
        ensures crash { is_ready self.old
            → LeavesFront (may_leave self.new) (synced self.old) (pending self.old ++ order ∷ []) };

    /// After it, each crash keeps all orders.
    fn sync(&mut self) -> Result<(), LogFailed>
        // After a call that succeeds, a log that was ready still is.
        ensures ready { OnOk result (is_ready self.old → is_ready self.new) }
        // At `Ok` every order that waited is synced, behind those that were.
        ensures synced { OnOk result (is_ready self.old
            → synced self.new ≡ synced self.old ++ pending self.old) }
        // At `Ok` nothing waits for a sync any more.
        ensures none { OnOk result (is_ready self.old → pending self.new ≡ []) }
        // However it ends, a crash leaves the synced orders, and of those that waited some from the
        // front.
        ensures crash { is_ready self.old
            → LeavesFront (may_leave self.new) (synced self.old) (pending self.old) };

    /// Makes room for so many orders more, as far as a log can say, and has each crash keep all orders.
    fn make_room(&mut self, orders: usize) -> Result<(), LogFailed>
        // After a call that succeeds, a log that was ready still is.
        ensures ready { OnOk result (is_ready self.old → is_ready self.new) }
        // At `Ok` every order that waited is synced, behind those that were. That there is room
        // then is not said.
        ensures synced { OnOk result (is_ready self.old
            → synced self.new ≡ synced self.old ++ pending self.old) }
        // At `Ok` nothing waits for a sync any more.
        ensures none { OnOk result (is_ready self.old → pending self.new ≡ []) }
        // However it ends, a crash leaves the synced orders, and of those that waited some from the
        // front.
        ensures crash { is_ready self.old
            → LeavesFront (may_leave self.new) (synced self.old) (pending self.old) };

    /// A log that is ready leaves its synced orders, and of those behind them some from the front.
    ghost leaves_front: { (log : Self) → is_ready log → LeavesFront (may_leave log) (synced log) (pending log) };
}
