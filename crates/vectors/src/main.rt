// The histories with known marks of document 01, and some with an opening (02, W-207), executed: a line for each call,
// name,code,row,rows,trials, and where a list was lent a line with the list after the call; held to the file stdout.
#![tactic(auto)]

use history::Row;
use marker::Question;
use std::io::Print;

const C2: [u64; 15] = [7, 1, 1, 1, 2, 7, 1, 2, 3, 4, 7, 2, 1, 5, 6];

const C3: [u64; 20] = [7, 1, 1, 1, 2, 7, 1, 2, 3, 4, 7, 1, 3, 5, 6, 7, 2, 1, 7, 8];

const C4: [u64; 15] = [7, 1, 1, 1, 4, 7, 2, 1, 10, 12, 7, 1, 2, 3, 6];

const C5: [u64; 25] = [
    7, 1, 1, 1, 10, 7, 1, 2, 2, 12, 7, 1, 3, 3, 9, 7, 2, 1, 13, 14, 7, 2, 3, 15, 16,
];

const C6: [u64; 30] = [
    7, 1, 1, 1, 4, 7, 1, 2, 2, 5, 7, 1, 3, 3, 6, 7, 2, 1, 7, 8, 7, 2, 2, 9, 10, 7, 2, 3, 11, 12,
];

const C7: [u64; 10] = [7, 1, 1, 5, 9, 7, 2, 1, 2, 6];

const C8: [u64; 10] = [7, 1, 1, 5, 9, 7, 2, 1, 2, 4];

const LARGEST: [u64; 5] = [7, 1, 1, 1, 4611686018427387903];

const TOO_LARGE: [u64; 5] = [7, 1, 1, 1, 4611686018427387904];

const EMPTY_SPAN: [u64; 5] = [7, 1, 1, 3, 3];

// An opening that is read after one write, and after two.
const READ_AFTER_ONE: [u64; 15] = [7, 3, 1, 0, 0, 7, 1, 2, 1, 2, 7, 2, 1, 3, 4];

const READ_AFTER_TWO: [u64; 20] = [7, 3, 1, 0, 0, 7, 1, 2, 1, 2, 7, 1, 3, 3, 4, 7, 2, 1, 5, 6];

// A write from 0 inside the zone of the opening, which stands in the last row.
const INSIDE_OPENING: [u64; 15] = [7, 1, 2, 0, 1, 7, 2, 1, 2, 3, 7, 3, 1, 0, 0];

const TWO_OPENINGS: [u64; 15] = [7, 3, 1, 0, 0, 7, 1, 1, 1, 2, 7, 3, 2, 0, 0];

const OPENING_AT_1: [u64; 5] = [7, 3, 1, 0, 1];

// Fills the table with writes of register 7, one after the other, each of a value of its own.
fn fill(table: &mut [u64]) {
    for i in 0..table.len() / Row::COLUMNS {
        let stamp = 2 * i as u64;
        let base = i * Row::COLUMNS;
        table[base..base + Row::COLUMNS].copy_from_slice(&[7, 1, stamp, stamp + 1, stamp + 2]);
    }
}

// Tables screened for register 7.
fn screened<R: Print>(rt: &R, cases: &[(&[u8], &[u64])]) {
    for (name, table) in cases {
        answer_lines::show(rt, name, screening::screen(table, 7));
    }
}

// Orders of register 7, checked: a name, a table, a k and the order.
fn checked<R: Print>(rt: &R, cases: &[(&[u8], &[u64], u64, &[u64])]) {
    for (name, table, k, order) in cases {
        answer_lines::show(rt, name, orders::check(table, 7, *k, order));
    }
}

fn histories<R: Print>(rt: &R) {
    screened(rt, &[(b"C1 screened", &[]), (b"C2 screened", &C2)]);
    answer_lines::show(rt, b"C2 for another register", screening::screen(&C2, 8));
    screened(rt, &[(b"C7 screened", &C7), (b"C8 screened", &C8)]);
}

fn stamps<R: Print>(rt: &R) {
    screened(
        rt,
        &[
            (b"C12 largest stamp", &LARGEST),
            (b"C12 a larger one", &TOO_LARGE),
            (b"C12 start equal to finish", &EMPTY_SPAN),
        ],
    );
}

fn limits<R: Print>(rt: &R) {
    let mut full = [0u64; 5120];
    fill(&mut full);
    let mut overfull = [0u64; 5125];
    fill(&mut overfull);
    screened(
        rt,
        &[(b"C11 1024 rows", &full), (b"C11 1025 rows", &overfull)],
    );
}

fn orders_accepted<R: Print>(rt: &R) {
    checked(
        rt,
        &[
            (b"C2 in 0 1 2 for k 2", &C2, 2, &[0, 1, 2]),
            (b"C4 in 2 0 1 for k 1", &C4, 1, &[2, 0, 1]),
            (b"C4 in 0 2 1 for k 2", &C4, 2, &[0, 2, 1]),
            (
                b"C7 in 0 1 for the largest k",
                &C7,
                18446744073709551615,
                &[0, 1],
            ),
        ],
    );
}

fn orders_refused<R: Print>(rt: &R) {
    checked(
        rt,
        &[
            (b"C9 C2 in 0 1 2 for k 1", &C2, 1, &[0, 1, 2]),
            (b"C10 C2 in 1 0 2 for k 2", &C2, 2, &[1, 0, 2]),
            (b"C2 in 0 1 2 for k 0", &C2, 0, &[0, 1, 2]),
            (b"C8 in 0 1", &C8, 1, &[0, 1]),
        ],
    );
}

fn misfit_lists<R: Print>(rt: &R) {
    checked(
        rt,
        &[
            (b"C2 in 0 1", &C2, 2, &[0, 1]),
            (b"C2 in 0 1 2 2", &C2, 2, &[0, 1, 2, 2]),
            (b"C2 in 0 and no row", &C2, 2, &[0, 18446744073709551615, 1]),
        ],
    );
}

// One mark of register 7, with a list of seven places.
fn line<R: Print>(rt: &R, name: &[u8], table: &[u64], question: u64, allowance: u64) {
    let mut list = [90u64, 91, 92, 93, 94, 95, 96];
    answer_lines::show(
        rt,
        name,
        marker::mark(table, 7, question, allowance, &mut list),
    );
    answer_lines::places(rt, &list);
}

// The three questions of each table, LBT with an allowance that is always enough.
fn marked<R: Print>(rt: &R, cases: &[(&[u8], &[u64])]) {
    for (name, table) in cases {
        line(rt, name, table, Question::Zones as u64, 0);
        line(rt, name, table, Question::Lbt as u64, 524800);
        line(rt, name, table, Question::Fzf as u64, 0);
    }
}

fn marks<R: Print>(rt: &R) {
    marked(
        rt,
        &[
            (b"C1 marked", &[]),
            (b"C2 marked", &C2),
            (b"C3 marked", &C3),
            (b"C4 marked", &C4),
            (b"C5 marked", &C5),
            (b"C6 marked", &C6),
            (b"C7 marked", &C7),
            (b"C8 marked", &C8),
        ],
    );
}

fn allowances<R: Print>(rt: &R) {
    let cases: [(&[u8], u64, u64); 5] = [
        (b"C5 by LBT with 3 trials", 2, 3),
        (b"C5 by LBT with 2 trials", 2, 2),
        (b"C5 by LBT with none", 2, 0),
        (b"C5 for question 0", 0, 3),
        (b"C5 for the largest question", 18446744073709551615, 3),
    ];
    for (name, question, allowance) in cases {
        line(rt, name, &C5, question, allowance);
    }
}

fn marked_stamps<R: Print>(rt: &R) {
    marked(
        rt,
        &[
            (b"C12 largest stamp marked", &LARGEST),
            (b"C12 a larger one marked", &TOO_LARGE),
            (b"C12 start equal to finish marked", &EMPTY_SPAN),
        ],
    );
}

fn opened<R: Print>(rt: &R) {
    marked(
        rt,
        &[
            (b"an opening read after one write", &READ_AFTER_ONE),
            (b"an opening read after two writes", &READ_AFTER_TWO),
            (b"a write inside the zone of the opening", &INSIDE_OPENING),
        ],
    );
}

fn refused_openings<R: Print>(rt: &R) {
    screened(
        rt,
        &[
            (b"two openings", &TWO_OPENINGS),
            (b"an opening with a stamp", &OPENING_AT_1),
        ],
    );
    let name = b"an opening that is not first in an order";
    checked(rt, &[(name, &INSIDE_OPENING, 2, &[0, 2, 1])]);
}

// One mark of register 7; of the list the first and the last two places are shown.
fn ends<R: Print>(rt: &R, name: &[u8], table: &[u64], question: u64, list: &mut [u64]) {
    answer_lines::show(rt, name, marker::mark(table, 7, question, 524800, list));
    match list {
        [a, b, .., c, d] => answer_lines::places(rt, &[*a, *b, *c, *d]),
        _ => answer_lines::places(rt, list),
    }
}

// The full table by each question, with a place too few, and a table with a row too many.
fn marked_limits<R: Print>(rt: &R) {
    let mut full = [0u64; 5120];
    fill(&mut full);
    let mut list = [9000u64; 1024];
    let cases: [(&[u8], Question); 3] = [
        (b"C11 1024 rows by zones", Question::Zones),
        (b"C11 1024 rows by LBT", Question::Lbt),
        (b"C11 1024 rows by FZF", Question::Fzf),
    ];
    for (name, question) in cases {
        ends(rt, name, &full, question as u64, &mut list);
    }
}

fn refused_limits<R: Print>(rt: &R) {
    let mut full = [0u64; 5120];
    fill(&mut full);
    let fzf = Question::Fzf as u64;
    ends(rt, b"C11 a place too few", &full, fzf, &mut [9000u64; 1023]);
    let mut overfull = [0u64; 5125];
    fill(&mut overfull);
    ends(
        rt,
        b"C11 1025 rows marked",
        &overfull,
        fzf,
        &mut [9000u64; 1025],
    );
}

// An answer in a lent list: where there is room, and where there is none.
fn written<R: Print>(rt: &R) {
    let answer = orders::check(&C2, 7, 2, &[1, 0, 2]);
    let mut list = [90u64, 91, 92, 93, 94];
    answer_lines::show(rt, b"written to 5 places", answer.write(&mut list));
    answer_lines::places(rt, &list);
    let mut short = [90u64, 91, 92];
    answer_lines::show(rt, b"written to 3 places", answer.write(&mut short));
    answer_lines::places(rt, &short);
}

fn main(rt: HostRuntime) {
    histories(&rt);
    limits(&rt);
    stamps(&rt);
    orders_accepted(&rt);
    orders_refused(&rt);
    misfit_lists(&rt);
    written(&rt);
    marks(&rt);
    allowances(&rt);
    marked_stamps(&rt);
    opened(&rt);
    refused_openings(&rt);
    marked_limits(&rt);
    refused_limits(&rt);
}
