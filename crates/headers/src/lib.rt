// The header of a log: where each needed column stands, read in one walk over its cells.
#![tactic(auto)]

ghost use Rattle.std.specs.Prelude.{◌≡◌, cond};
ghost use Rattle.cells.specs.Parts.{same};
ghost use Rattle.headers.specs.Header.{more, is_only, place, places_of, complete};
ghost use Rattle.headers.specs.Steps.{header_of, named_with};

// What of a name is found in the header.
#[derive(Clone, Copy)]
pub enum Column {
    Missing,
    Only(usize),
    Repeated,
}

// The five needed columns, as found.
#[derive(Clone, Copy)]
pub struct Named {
    register: Column,
    kind: Column,
    value: Column,
    start: Column,
    finish: Column,
}

// The numbers of the five needed columns.
#[derive(Clone, Copy)]
pub struct Columns {
    pub register: usize,
    pub kind: usize,
    pub value: usize,
    pub start: usize,
    pub finish: usize,
}

// What loading knows of the header line: whether it is sound, where the data lines start, the count of cells, and the needed columns.
#[derive(Clone, Copy)]
pub struct Header {
    pub sound: bool,
    pub start: usize,
    pub width: usize,
    pub columns: Columns,
}

// What of a name is found behind one cell more, in column k.
fn found_at(found: Column, name: &[u8], cell: &[u8], k: usize) -> Column
    ensures { result ≡ cond (same cell.now name.now) (more found k) found }
{
    if cell != name {
        return found;
    }
    match found {
        Column::Missing => Column::Only(k),
        Column::Only(_) | Column::Repeated => Column::Repeated,
    }
}

// What of the needed names is found behind one cell more.
fn named_at(named: Named, cell: &[u8], k: usize) -> Named
    ensures { result ≡ named_with named cell.now k }
{
    Named {
        register: found_at(named.register, b"register", cell, k),
        kind: found_at(named.kind, b"kind", cell, k),
        value: found_at(named.value, b"value", cell, k),
        start: found_at(named.start, b"start", cell, k),
        finish: found_at(named.finish, b"finish", cell, k),
    }
}

fn is_only(column: Column) -> bool
    ensures { result ≡ is_only column }
{
    matches!(column, Column::Only(_))
}

fn place(column: Column) -> usize
    ensures { result ≡ place column }
{
    match column {
        Column::Only(k) => k,
        Column::Missing | Column::Repeated => 0,
    }
}

// Whether each of the needed names stands once.
fn complete(named: Named) -> bool
    ensures { result ≡ complete named }
{
    is_only(named.register)
        && is_only(named.kind)
        && is_only(named.value)
        && is_only(named.start)
        && is_only(named.finish)
}

fn places_of(named: Named) -> Columns
    ensures { result ≡ places_of named }
{
    Columns {
        register: place(named.register),
        kind: place(named.kind),
        value: place(named.value),
        start: place(named.start),
        finish: place(named.finish),
    }
}

// The header line of a text.
pub fn read_header(bytes: &[u8]) -> Header
    ensures { result ≡ header_of bytes.now }
{
    let mut named = Named {
        register: Column::Missing,
        kind: Column::Missing,
        value: Column::Missing,
        start: Column::Missing,
        finish: Column::Missing,
    };
    let mut k = 0;
    let mut at = 0;
    // The next cell begins behind the comma that ends this one.
    loop {
        let end = cells::cell_end(bytes, at);
        named = named_at(named, &bytes[at..end], k);
        k += 1;
        if !cells::comma_at(bytes, end) {
            return Header {
                sound: end < bytes.len() && complete(named),
                start: end + 1,
                width: k,
                columns: places_of(named),
            };
        }
        at = end + 1;
    }
}
