// The history: a row of the table, an operation, and the answer of every call.
#![tactic(auto)]

ghost use Rattle.std.specs.Prelude.{◌≡◌, ◌+◌, ◌*◌, ◌≤◌, length, eqb};
ghost use Rattle.history.specs.Table.{row_at, operation, op_at, bears, is_opening, is_write, is_read, precedes};
ghost use Rattle.history.specs.Screen.{stray_opening};
ghost use Rattle.history.specs.Answer.{refused_by, refused, passed, answer_after, list_after};

#[derive(Clone, Copy)]
pub struct Row {
    pub register: u64,
    pub kind: u64,
    pub value: u64,
    pub start: u64,
    pub finish: u64,
}

// An operation of a register: the number of its row, and the row without the register.
#[derive(Clone, Copy)]
pub struct Op {
    pub row: usize,
    pub kind: u64,
    pub value: u64,
    pub start: u64,
    pub finish: u64,
}

impl Row {
    pub const LARGEST_STAMP: u64 = 4611686018427387903;

    pub const LARGEST_COUNT: usize = 1024;

    // Up to so many rows are few, and up to so many are some: short arrays do for them, which are sooner cleared than the long ones.
    pub const FEW: usize = 32;

    pub const SOME: usize = 256;

    pub const COLUMNS: usize = 5;

    // The numbers of a table with the most rows.
    pub const LARGEST_TABLE: usize = 5120;

    pub const REGISTER: usize = 0;

    pub const KIND: usize = 1;

    pub const VALUE: usize = 2;

    pub const START: usize = 3;

    pub const FINISH: usize = 4;

    // The row of a table, which the caller keeps within it.
    fn at(table: &[u64], row: usize) -> Row
        requires { row * 5 + 5 ≤ length table.now }
        ensures { result ≡ row_at table.now row }
    {
        let base = row * Row::COLUMNS;
        Row {
            register: table[base + Row::REGISTER],
            kind: table[base + Row::KIND],
            value: table[base + Row::VALUE],
            start: table[base + Row::START],
            finish: table[base + Row::FINISH],
        }
    }

    fn bears(self, register: u64) -> bool
        ensures { result ≡ eqb self.register register }
    {
        self.register == register
    }

    fn operation(self, row: usize) -> Op
        ensures { result ≡ operation self row }
    {
        Op {
            row,
            kind: self.kind,
            value: self.value,
            start: self.start,
            finish: self.finish,
        }
    }
}

// Whether a row of the table, which the caller keeps within it, bears the register.
pub fn bears(table: &[u64], register: u64, row: usize) -> bool
    requires { row * 5 + 5 ≤ length table.now }
    ensures { result ≡ bears table.now register row }
{
    Row::at(table, row).bears(register)
}

impl Op {
    // The operation of a row of the table, which the caller keeps within it.
    pub fn at(table: &[u64], row: usize) -> Op
        requires { row * 5 + 5 ≤ length table.now }
        ensures { result ≡ op_at table.now row }
    {
        Row::at(table, row).operation(row)
    }

    pub fn is_opening(self) -> bool
        ensures { result ≡ is_opening self }
    {
        self.kind == Kind::Opening as u64
    }

    pub fn is_write(self) -> bool
        ensures { result ≡ is_write self }
    {
        self.kind == Kind::Write as u64 || self.kind == Kind::Opening as u64
    }

    pub fn is_read(self) -> bool
        ensures { result ≡ is_read self }
    {
        self.kind == Kind::Read as u64
    }

    // An opening with another stamp than 0.
    pub fn strays(self) -> bool
        ensures { result ≡ stray_opening self }
    {
        self.is_opening() && (self.start != 0 || self.finish != 0)
    }

    pub fn precedes(self, later: Op) -> bool
        ensures { result ≡ precedes self later }
    {
        self.finish < later.start || self.is_opening() && later.kind != Kind::Opening as u64
    }
}

// The codes of an answer, in the words of the documents. There is no 6.
#[derive(Clone, Copy, PartialEq, Eq)]
pub enum Code {
    Fresh = 0,
    Ragged = 1,
    Overfull = 2,
    NoSuchQuestion = 3,
    BadKind = 4,
    BadSpan = 5,
    TwinWrite = 7,
    OrphanRead = 8,
    EarlyRead = 9,
    ShortList = 10,
    Spent = 11,
    Stale = 12,
    MisfitList = 13,
    OutOfTime = 14,
    TooFarBehind = 15,
    CutRecord = 16,
    StrangeRecord = 17,
    HeaderFault = 18,
    UnreadableCell = 19,
    SecondOpening = 20,
}

impl Code {
    // The answer with this code, a row field and zeros.
    pub fn at(self, row: u64) -> Answer
        ensures { result ≡ refused self row }
    {
        Answer::refused(self as u64, row)
    }
}

// The kinds of a row that passes test 4. A row's kind is a number, since a table may hold any.
#[derive(Clone, Copy, PartialEq, Eq)]
pub enum Kind {
    Write = 1,
    Read = 2,
    Opening = 3,
}

#[derive(Clone, Copy)]
pub struct Answer {
    pub code: u64,
    pub row: u64,
    pub rows: u64,
    pub trials: u64,
}

impl Answer {
    // The answer with a code and a row field alone.
    pub fn refused(code: u64, row: u64) -> Answer
        ensures { result ≡ refused_by code row }
    {
        Answer {
            code,
            row,
            rows: 0,
            trials: 0,
        }
    }

    // The answer of a register that passes, with the count of its rows.
    pub fn passed(rows: u64) -> Answer
        ensures { result ≡ passed rows }
    {
        Answer {
            code: Code::Fresh as u64,
            row: 0,
            rows,
            trials: 0,
        }
    }

    // Puts the four numbers at the front of a lent list; a list too short for them is left as it was.
    pub fn write(self, list: &mut [u64]) -> Answer
        ensures { (result ≡ answer_after list.old) × (list.new ≡ list_after self list.old) }
    {
        if list.len() < 4 {
            return Code::ShortList.at(0);
        }
        list[0] = self.code;
        list[1] = self.row;
        list[2] = self.rows;
        list[3] = self.trials;
        Answer::passed(0)
    }
}
