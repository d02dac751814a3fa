// How a run ends, and how the program says so.
use crate::Field;
use std::fmt;

/// What an audit of journals and logs finds wrong. Ticks number the events of a cluster, from 0. Where several faults stand side by side, the first in this order is named, at its least tick.
#[derive(Clone, Copy, Debug, PartialEq, Eq)]
pub enum AuditFault {
    /// Two events of the journals have this tick.
    Twice { tick: u64 },
    /// A call of a client's log isn't in the journal of its place as the same event, or an event of that client isn't in its log exactly once.
    Stranger { tick: u64 },
    /// The readings of two events differ, against their order, by more than the skew. `earlier` is the lesser tick.
    Skew { earlier: u64, later: u64 },
    /// A save or an update accepted a signature that no event before it issued.
    Unissued { tick: u64 },
    /// Two events of one round stand in the wrong order. `earlier` is the tick of the one that must come first.
    RoundOrder { earlier: u64, later: u64 },
    /// A device accepted lists that aren't the plan of the round's pages and scans.
    Unplanned { tick: u64 },
}

impl fmt::Display for AuditFault {
    ghost use Rattle.std.specs.Prelude.{Some};
    ghost use Rattle.keep_spec.specs.Status.{audit_fault_text};

    ghost output = { λ fault. Some (audit_fault_text fault) };

    fn fmt<W: fmt::Write>(&self, f: &mut fmt::Formatter<W>) -> fmt::Result {
        match *self {
            AuditFault::Twice { tick } => write!(f, "Twice {tick}"),
            AuditFault::Stranger { tick } => write!(f, "Stranger {tick}"),
            AuditFault::Skew { earlier, later } => write!(f, "Skew {earlier} {later}"),
            AuditFault::Unissued { tick } => write!(f, "Unissued {tick}"),
            AuditFault::RoundOrder { earlier, later } => write!(f, "RoundOrder {earlier} {later}"),
            AuditFault::Unplanned { tick } => write!(f, "Unplanned {tick}"),
        }
    }
}

/// How a run ends. Lines are counted from 1, devices from 0. It is shown as the words that the program writes on standard error.
#[derive(Clone, Copy, Debug, PartialEq, Eq)]
pub enum Status {
    /// The input was read to its end, and every line was done.
    Done,
    /// The words of the command line aren't those of a command.
    BadWords,
    /// The first line isn't a configuration, for the sake of this field.
    BadConfig { field: Field },
    /// The first line that is no script line in the state that the lines before it reached.
    BadLine { number: u64 },
    /// The sink failed. What was written before is a prefix of the run's text.
    WriteFault,
    /// The source failed. All lines before were done.
    ReadFault,
    /// Memory was refused: the only error that every contract permits.
    NoMemory,
    /// This line has more bytes before its newline than a line may have.
    LineTooLong { number: u64 },
    /// The next line reaches past the last byte that an input may have.
    InputTooLong,
    /// The first device that has replicas or trashed copies when it is opened.
    NotEmpty { device: u32 },
    /// The store of this device failed when the device was opened.
    StoreFault { device: u32 },
    /// The audit found this fault.
    AuditFault { fault: AuditFault },
    /// A door failed to hand a connection out.
    DoorFault,
    /// As many events were made as can be numbered, and another one was asked for.
    PortFault,
}

impl Status {
    ghost use Rattle.std.specs.Prelude.{◌≡◌};
    ghost use Rattle.keep_spec.specs.Status.{exit_status};

    /// The exit status of the program.
    pub fn exit_status(self) -> u8
        ensures { result ≡ exit_status self }
    {
        match self {
            Status::Done => 0,
            Status::BadWords => 2,
            Status::BadConfig { .. } => 3,
            Status::BadLine { .. } => 4,
            Status::WriteFault => 5,
            Status::ReadFault => 6,
            Status::NoMemory => 7,
            Status::LineTooLong { .. } => 8,
            Status::InputTooLong => 9,
            Status::NotEmpty { .. } => 10,
            Status::StoreFault { .. } => 11,
            Status::AuditFault { .. } => 12,
            Status::DoorFault => 13,
            Status::PortFault => 17,
        }
    }
}

impl fmt::Display for Status {
    ghost use Rattle.std.specs.Prelude.{Some};
    ghost use Rattle.keep_spec.specs.Status.{status_text};

    ghost output = { λ status. Some (status_text status) };

    fn fmt<W: fmt::Write>(&self, f: &mut fmt::Formatter<W>) -> fmt::Result {
        match *self {
            Status::Done => f.write_str("done"),
            Status::BadWords => f.write_str("bad words"),
            Status::BadConfig { field } => write!(f, "bad configuration: {field}"),
            Status::BadLine { number } => write!(f, "bad line {number}"),
            Status::WriteFault => f.write_str("write fault"),
            Status::ReadFault => f.write_str("read fault"),
            Status::NoMemory => f.write_str("no memory"),
            Status::LineTooLong { number } => write!(f, "line too long: {number}"),
            Status::InputTooLong => f.write_str("input too long"),
            Status::NotEmpty { device } => write!(f, "device not empty: {device}"),
            Status::StoreFault { device } => write!(f, "store fault: {device}"),
            Status::AuditFault { fault } => write!(f, "audit: {fault}"),
            Status::DoorFault => f.write_str("door fault"),
            Status::PortFault => f.write_str("port fault"),
        }
    }
}
