use shop_engine::Ended;

/// How a run ended.
#[derive(Clone, Copy, Debug, PartialEq, Eq)]
pub enum Status {
    /// All was served.
    Done,
    /// The input was cut, or a message of it was refused.
    Unserved,
    /// The words are no command.
    BadWords,
    /// The source failed.
    ReadFault,
    /// The sink failed.
    WriteFault,
    /// The listener failed.
    NetworkFault,
    /// A job could not be started.
    WorkerFault,
    /// Memory ran out.
    Memory,
    /// The disk failed.
    DiskFault,
    /// The file is not the journal that the words ask for.
    NotThisJournal,
}

impl Status {
    ghost use Rattle.std.specs.Prelude.{◌≡◌};
    ghost use Rattle.shop_app.specs.Statuses.{exit_code, fault_line, status_of};

    /// How a run ended whose connection ended so.
    pub fn of(end: Ended) -> Status
        ensures { result ≡ status_of end }
    {
        match end {
            Ended::Closed | Ended::Asked => Status::Done,
            Ended::Cut | Ended::Refused(_) | Ended::Spent => Status::Unserved,
            Ended::ReadFault => Status::ReadFault,
            Ended::WriteFault => Status::WriteFault,
            Ended::Memory => Status::Memory,
        }
    }

    /// The exit code of the program.
    pub fn code(&self) -> u8
        ensures { result ≡ exit_code self.now }
    {
        match self {
            Status::Done => 0,
            Status::Unserved => 1,
            Status::BadWords => 2,
            Status::ReadFault => 3,
            Status::WriteFault => 4,
            Status::NetworkFault => 5,
            Status::WorkerFault => 6,
            Status::Memory => 7,
            Status::DiskFault => 8,
            Status::NotThisJournal => 9,
        }
    }

    /// The line for the faults sink, which is empty where all went well.
    pub fn line(&self) -> &'static [u8]
        ensures { result.now ≡ fault_line self.now }
    {
        match self {
            Status::Done => b"",
            Status::Unserved => b"tpcw: input cut or refused\n",
            Status::BadWords => b"tpcw: bad words\n",
            Status::ReadFault => b"tpcw: read fault\n",
            Status::WriteFault => b"tpcw: write fault\n",
            Status::NetworkFault => b"tpcw: network fault\n",
            Status::WorkerFault => b"tpcw: worker fault\n",
            Status::Memory => b"tpcw: out of memory\n",
            Status::DiskFault => b"tpcw: disk fault\n",
            Status::NotThisJournal => b"tpcw: not this journal\n",
        }
    }
}
