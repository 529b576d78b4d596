// A prepared history as the search code has it: columns with a place for each operation. Their meaning stands in specs/, the laws of positions in
// proofs/.
#![tactic(auto)]

ghost use Rattle.positions.specs.Columns.{cols, Linked, Sound};

// The position of each operation's write, and the chain of each write's reads: of a write its last read, of a read the one before it, each as one
// more than the position, and 0 for none.
#[derive(Clone, Copy)]
pub struct Chains<'a> {
    pub writer: &'a [u64],
    pub last: &'a [u64],
    pub prev: &'a [u64],
    pub ghost linked: { Linked writer.now last.now prev.now },
}

// The columns of a prepared history: the doubled ranks of starts and finishes, and the chains.
#[derive(Clone, Copy)]
pub struct Columns<'a, 'b> {
    pub start: &'a [u64],
    pub finish: &'a [u64],
    pub chains: Chains<'b>,
    pub ghost sound: { Sound (cols start.now finish.now chains.writer.now chains.last.now chains.prev.now) },
}
