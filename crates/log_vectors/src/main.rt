// Logs with known tables and clock texts with known stamps, executed: a line for each call, name,code,row,rows,trials, and where a table was lent
// a line with it after the call; of a text that is read the text and its stamp; held to the file stdout.
#![tactic(auto)]

use std::io::Print;

// One log, loaded into a table of twelve places.
fn loaded<R: Print>(rt: &R, name: &[u8], log: &[u8]) {
    let mut table = [90u64, 91, 92, 93, 94, 95, 96, 97, 98, 99, 100, 101];
    answer_lines::show(rt, name, logs::load(log, &mut table));
    answer_lines::places(rt, &table);
}

// Logs with their names, loaded one after the other.
fn all_loaded<R: Print>(rt: &R, logs: &[(&[u8], &[u8])]) {
    for (name, log) in logs {
        loaded(rt, name, log);
    }
}

fn log_headers<R: Print>(rt: &R) {
    all_loaded(
        rt,
        &[
            (b"log without a byte", b""),
            (
                b"log without a line feed",
                b"register,kind,value,start,finish",
            ),
            (b"log of a line feed", b"\n"),
            (b"log of a header", b"register,kind,value,start,finish\n"),
            (
                b"log with a name missing",
                b"register,kind,value,start\n7,w,1,2\n",
            ),
            (
                b"log with a name twice",
                b"register,kind,value,start,finish,kind\n7,w,1,2,3,w\n",
            ),
            (
                b"log with other names of which one is empty and two alike",
                b",note,finish,start,note,value,kind,register\n,,3,2,,1,w,7\n",
            ),
        ],
    );
}

// A name is that very name, byte for byte.
fn log_names<R: Print>(rt: &R) {
    all_loaded(
        rt,
        &[
            (
                b"log with a blank before a name",
                b"register, kind,value,start,finish\n",
            ),
            (
                b"log with a name in capitals",
                b"register,KIND,value,start,finish\n",
            ),
            (
                b"log with a name in quotes",
                b"register,\"kind\",value,start,finish\n",
            ),
            (
                b"log with a carriage return behind a name",
                b"register,kind,value,start,finish\r\n",
            ),
            (
                b"log with a blank behind a name",
                b"register,kind ,value,start,finish\n",
            ),
            (
                b"log with the beginning of a name",
                b"register,kin,value,start,finish\n",
            ),
            (
                b"log with such names beside the needed ones",
                b"register, kind,kind,KIND,kinds,value,start,finish,finish\r\n7,r,w,r,r,1,2,3,\r\n",
            ),
        ],
    );
}

fn log_lines<R: Print>(rt: &R) {
    all_loaded(
        rt,
        &[
            (
                b"log of two lines",
                b"register,kind,value,start,finish\n7,w,1,2,3\n7,r,1,4,5\n",
            ),
            (
                b"log of three lines for a table of two",
                b"register,kind,value,start,finish\n7,w,1,2,3\n7,r,1,4,5\n7,r,1,6,7\n",
            ),
            (
                b"log without the last line feed",
                b"register,kind,value,start,finish\n7,w,1,2,3\n7,r,1,4,5",
            ),
            (
                b"log with an empty line",
                b"register,kind,value,start,finish\n7,w,1,2,3\n\n",
            ),
            (
                b"log with a cell too few",
                b"register,kind,value,start,finish\n7,w,1,2\n",
            ),
            (
                b"log with a cell too many",
                b"register,kind,value,start,finish\n7,w,1,2,3,\n",
            ),
        ],
    );
}

// What is tested first is what is answered.
fn log_sequences<R: Print>(rt: &R) {
    all_loaded(
        rt,
        &[
            (
                b"log with a bad header and a bad line",
                b"register,kind,value,start\n7\n",
            ),
            (
                b"log with a bad cell and no line feed",
                b"register,kind,value,start,finish\n7,W,1,2,3",
            ),
            (
                b"log with a bad cell and a cell too many",
                b"register,kind,value,start,finish\n7,W,1,2,3,4\n",
            ),
            (
                b"log with two bad cells",
                b"finish,kind,value,start,register\n3,w,x,2,x\n",
            ),
            (
                b"log with two bad lines",
                b"register,kind,value,start,finish\n7,w,1,2,\n7,w\n",
            ),
            (
                b"log with a bad line behind a full table",
                b"register,kind,value,start,finish\n7,w,1,2,3\n7,r,1,4,5\n7,r,1,6\n",
            ),
        ],
    );
}

fn log_numbers<R: Print>(rt: &R) {
    all_loaded(
        rt,
        &[
            (
                b"log with zeros and the largest number",
                b"register,kind,value,start,finish\n000000000000000000000000000000,w,18446744073709551615,0000000000000000000000000000007,3\n",
            ),
            (
                b"log with a larger number",
                b"register,kind,value,start,finish\n7,w,18446744073709551616,2,3\n",
            ),
            (
                b"log with a far larger number",
                b"register,kind,value,start,finish\n7,w,100000000000000000000000,2,3\n",
            ),
            (
                b"log with a larger register",
                b"register,kind,value,start,finish\n18446744073709551616,w,1,2,3\n",
            ),
            (
                b"log with a larger start",
                b"register,kind,value,start,finish\n7,w,1,18446744073709551616,3\n",
            ),
            (
                b"log with a larger finish",
                b"register,kind,value,start,finish\n7,w,1,2,18446744073709551616\n",
            ),
        ],
    );
}

fn log_digits<R: Print>(rt: &R) {
    all_loaded(
        rt,
        &[
            (
                b"log with a byte over 127 in a number",
                b"register,kind,value,start,finish\n7,w,1\xff,2,3\n",
            ),
            (
                b"log with a byte 0 in a number",
                b"register,kind,value,start,finish\n7,w,1,2,\x003\n",
            ),
            (
                b"log with an empty number",
                b"register,kind,value,start,finish\n7,w,,2,3\n",
            ),
            (
                b"log with a sign",
                b"register,kind,value,start,finish\n7,w,1,+2,3\n",
            ),
            (
                b"log with a blank",
                b"register,kind,value,start,finish\n7,w,1,2 ,3\n",
            ),
            (
                b"log with a carriage return",
                b"register,kind,value,start,finish\n7,w,1,2,3\r\n",
            ),
        ],
    );
}

fn log_kinds<R: Print>(rt: &R) {
    all_loaded(
        rt,
        &[
            (
                b"log with a capital kind",
                b"register,kind,value,start,finish\n7,R,1,2,3\n",
            ),
            (
                b"log with an empty kind",
                b"register,kind,value,start,finish\n7,,1,2,3\n",
            ),
            (
                b"log with a long kind",
                b"register,kind,value,start,finish\n7,wr,1,2,3\n",
            ),
            (
                b"log with a kind as a number",
                b"register,kind,value,start,finish\n7,1,1,2,3\n",
            ),
            (
                b"log with a blank behind a kind",
                b"register,kind,value,start,finish\n7,w ,1,2,3\n",
            ),
            (
                b"log with a kind in quotes",
                b"register,kind,value,start,finish\n7,\"w\",1,2,3\n",
            ),
            (
                b"log with a carriage return behind a kind",
                b"register,value,start,finish,kind\n7,1,2,3,w\r\n",
            ),
            (
                b"log with an opening that has stamps",
                b"register,kind,value,start,finish\n7,o,1,0:00:00:00.002,3\n",
            ),
            (
                b"log with a start above its finish",
                b"register,kind,value,start,finish\n7,w,1,9,3\n",
            ),
            (
                b"log with any bytes in a column that is skipped",
                b"register,kind,value,start,x,finish\n7,w,1,2,\"\r\x00\xff;',3\n",
            ),
        ],
    );
}

// A byte of a header with one line behind it again and again.
fn byte_at(header: &[u8], line: &[u8], i: usize) -> u8 {
    if i < header.len() {
        header[i]
    } else if line.is_empty() {
        0
    } else {
        line[(i - header.len()) % line.len()]
    }
}

// Fills the buffer with such a log, as far as it goes.
fn repeat(header: &[u8], line: &[u8], log: &mut [u8]) {
    for (i, byte) in log.iter_mut().enumerate() {
        *byte = byte_at(header, line, i);
    }
}

// One line again and again, loaded; of the table the last three places are shown.
fn many_lines<R: Print>(rt: &R, name: &[u8], line: &[u8], log: &mut [u8], table: &mut [u64]) {
    repeat(b"register,kind,value,start,finish\n", line, log);
    answer_lines::show(rt, name, logs::load(log, table));
    if let [.., a, b, c] = table {
        answer_lines::places(rt, &[*a, *b, *c]);
    }
}

// Tables that a log's rows fill, and one place short of it.
fn log_tables<R: Print>(rt: &R) {
    many_lines(
        rt,
        b"log of a header and no place",
        b"",
        &mut [0u8; 33],
        &mut [],
    );
    many_lines(
        rt,
        b"log of two lines and ten places",
        b"7,w,1,2,3\n",
        &mut [0u8; 53],
        &mut [9000u64; 10],
    );
    many_lines(
        rt,
        b"log of two lines and nine places",
        b"7,w,1,2,3\n",
        &mut [0u8; 53],
        &mut [9000u64; 9],
    );
    many_lines(
        rt,
        b"log of 1024 lines",
        b"7,w,1,2,3\n",
        &mut [0u8; 10273],
        &mut [9000u64; 5120],
    );
    many_lines(
        rt,
        b"log of 1024 lines and a place too few",
        b"7,w,1,2,3\n",
        &mut [0u8; 10273],
        &mut [9000u64; 5119],
    );
}

// A 1,025th line, and what comes before it and after it.
fn log_limits<R: Print>(rt: &R) {
    many_lines(
        rt,
        b"log of 1025 lines",
        b"7,w,1,2,3\n",
        &mut [0u8; 10283],
        &mut [9000u64; 5125],
    );
    many_lines(
        rt,
        b"log of 1025 lines and no last line feed",
        b"7,w,1,2,3\n",
        &mut [0u8; 10282],
        &mut [9000u64; 5119],
    );
    many_lines(
        rt,
        b"log of 1025 lines of which the last is cut",
        b"7,w,1,2,3\n",
        &mut [0u8; 10274],
        &mut [9000u64; 5125],
    );
    many_lines(
        rt,
        b"log of 1025 lines of which each is bad",
        b"7,w,1,2,x\n",
        &mut [0u8; 10283],
        &mut [9000u64; 5125],
    );
}

// A stamp written as clock time, and the text after the call.
fn stamp_written<R: Print>(rt: &R, name: &[u8], stamp: u64, text: &mut [u8]) {
    answer_lines::show(rt, name, clock::write(stamp, text));
    let _ = rt.write_all(text);
    let _ = rt.write_all(b"\n");
}

fn stamps_written<R: Print>(rt: &R) {
    let stamps: [(&[u8], u64); 8] = [
        (b"clock text of 0", 0),
        (b"clock text of 999", 999),
        (b"clock text of 1000", 1000),
        (b"clock text of a day less a thousandth", 86399999),
        (b"clock text of a day", 86400000),
        (b"clock text of the largest stamp", 4611686018427387903),
        (b"clock text of a larger one", 4611686018427387904),
        (b"clock text of the largest number", 18446744073709551615),
    ];
    for (name, stamp) in stamps {
        stamp_written(rt, name, stamp, &mut [b'_'; 26]);
    }
}

// Just enough room, and a byte too little; a stamp that is too large is told first.
fn stamps_short<R: Print>(rt: &R) {
    stamp_written(rt, b"clock text of 0 in 14 bytes", 0, &mut [b'_'; 14]);
    stamp_written(rt, b"clock text of 0 in 13 bytes", 0, &mut [b'_'; 13]);
    stamp_written(rt, b"clock text of 0 in no byte", 0, &mut []);
    stamp_written(
        rt,
        b"clock text of the largest stamp in 24 bytes",
        4611686018427387903,
        &mut [b'_'; 24],
    );
    stamp_written(
        rt,
        b"clock text of the largest stamp in 23 bytes",
        4611686018427387903,
        &mut [b'_'; 23],
    );
    stamp_written(
        rt,
        b"clock text of a larger one in no byte",
        4611686018427387904,
        &mut [],
    );
}

// What a text says as clock time.
fn clock_read<R: Print>(rt: &R, text: &[u8]) {
    let _ = rt.write_all(text);
    let Some(stamp) = clock::read(text) else {
        let _ = rt.write_all(b",none\n");
        return;
    };
    answer_lines::field(rt, stamp);
    let _ = rt.write_all(b"\n");
}

fn all_read<R: Print>(rt: &R, texts: &[&[u8]]) {
    for text in texts {
        clock_read(rt, text);
    }
}

fn clock_texts<R: Print>(rt: &R) {
    all_read(
        rt,
        &[
            b"0:00:00:00.000",
            b"0:00:00:00.999",
            b"0:00:00:01.000",
            b"0:23:59:59.999",
            b"1:00:00:00.000",
            b"53375995583:15:36:27.903",
        ],
    );
}

// Each range broken by one.
fn clock_ranges<R: Print>(rt: &R) {
    all_read(
        rt,
        &[
            b"0:24:00:00.000",
            b"0:00:60:00.000",
            b"0:00:00:60.000",
            b"0:00:00:00.1000",
            b"53375995583:15:36:27.904",
            b"53375995583:15:36:28.000",
            b"53375995583:15:37:00.000",
            b"53375995583:16:00:00.000",
            b"53375995584:00:00:00.000",
        ],
    );
}

// Leading zeros, and days of many digits.
fn clock_days<R: Print>(rt: &R) {
    all_read(
        rt,
        &[
            b"00:00:00:00.000",
            b"01:00:00:00.000",
            b"053375995583:15:36:27.903",
            b"100000000000:00:00:00.000",
            b"18446744073709551615:00:00:00.000",
            b"18446744073709551616:00:00:00.000",
            b"213503982334601:00:00:00.000",
            b"9999999999999999999999999999999999999999:00:00:00.000",
        ],
    );
}

// A digit too few, and one too many.
fn clock_digits<R: Print>(rt: &R) {
    all_read(
        rt,
        &[
            b"0:0:00:00.000",
            b"0:00:0:00.000",
            b"0:00:00:0.000",
            b"0:00:00:00.00",
            b"0:000:00:00.000",
            b"0:00:000:00.000",
            b"0:00:00:000.000",
            b"0:00:00:00.0000",
        ],
    );
}

// An empty part, a part too few, and a further part.
fn clock_parts<R: Print>(rt: &R) {
    all_read(
        rt,
        &[
            b":00:00:00.000",
            b"0::00:00.000",
            b"0:00::00.000",
            b"0:00:00:.000",
            b"0:00:00:00.",
            b"00:00:00.000",
            b"0:00:00:00",
            b"0:0:00:00:00.000",
            b"0:00:00:00:00.000",
            b"0:00:00:00.000.000",
            b"0:00:00:00.000:00",
        ],
    );
}

// Other bytes in the place of digits and separators.
fn clock_bytes<R: Print>(rt: &R) {
    all_read(
        rt,
        &[
            b"",
            b"86400000",
            b"0;00:00:00.000",
            b"0:00.00:00.000",
            b"0:00:00.00.000",
            b"0:00:00:00:000",
            b"0:00:00:00,000",
            b" 0:00:00:00.000",
            b"0:00:00:00.000 ",
            b"-0:00:00:00.000",
            b"0:+1:00:00.000",
            b"0:00:0 :00.000",
            b"0:00:00:0x.000",
            b"0:00:00:00.00/",
            b"a:00:00:00.000",
        ],
    );
}

fn clock_logs<R: Print>(rt: &R) {
    all_loaded(
        rt,
        &[
            (
                b"clock log",
                b"register,kind,value,start,finish\n7,w,1,0:00:00:02.000,53375995583:15:36:27.903\n",
            ),
            (
                b"clock log of both forms",
                b"register,kind,value,start,finish\n7,w,1,0:00:00:02.000,3\n7,r,1,4,1:00:00:00.000\n",
            ),
            (
                b"clock log with its columns in another order",
                b"finish,note,start,value,kind,register\n1:00:00:00.000,0:24:00:00.000,0:00:00:02.000,1,w,7\n",
            ),
            (
                b"clock log with a decimal stamp over the largest",
                b"register,kind,value,start,finish\n7,w,1,0:00:00:00.000,18446744073709551615\n",
            ),
        ],
    );
}

// Where it is no clock time, the cell cannot be read; nor is clock time read in another column.
fn clock_log_faults<R: Print>(rt: &R) {
    all_loaded(
        rt,
        &[
            (
                b"clock log with a start at hour 24",
                b"register,kind,value,start,finish\n7,w,1,0:24:00:00.000,3\n",
            ),
            (
                b"clock log with a finish over the largest stamp",
                b"register,kind,value,start,finish\n7,w,1,2,53375995583:15:36:27.904\n",
            ),
            (
                b"clock log with many days",
                b"register,kind,value,start,finish\n7,w,1,9999999999999999999999999999999999999999:00:00:00.000,3\n",
            ),
            (
                b"clock log with a leading zero",
                b"register,kind,value,start,finish\n7,w,1,2,01:00:00:00.000\n",
            ),
            (
                b"clock log with two digits of thousandths",
                b"register,kind,value,start,finish\n7,w,1,2,0:00:00:03.00\n",
            ),
            (
                b"clock log with two bad stamps",
                b"register,kind,value,start,finish\n7,w,1,0:00:60:00.000,0:00:00:60.000\n",
            ),
            (
                b"clock log with a carriage return",
                b"register,kind,value,start,finish\n7,w,1,2,0:00:00:03.000\r\n",
            ),
            (
                b"clock log with clock time as register",
                b"register,kind,value,start,finish\n0:00:00:00.007,w,1,2,3\n",
            ),
            (
                b"clock log with clock time as kind",
                b"register,kind,value,start,finish\n7,0:00:00:00.001,1,2,3\n",
            ),
            (
                b"clock log with clock time as value",
                b"register,kind,value,start,finish\n7,w,0:00:00:00.001,2,3\n",
            ),
        ],
    );
}

fn main(rt: HostRuntime) {
    log_headers(&rt);
    log_names(&rt);
    log_lines(&rt);
    log_sequences(&rt);
    log_numbers(&rt);
    log_digits(&rt);
    log_kinds(&rt);
    log_tables(&rt);
    log_limits(&rt);
    stamps_written(&rt);
    stamps_short(&rt);
    clock_texts(&rt);
    clock_ranges(&rt);
    clock_days(&rt);
    clock_digits(&rt);
    clock_parts(&rt);
    clock_bytes(&rt);
    clock_logs(&rt);
    clock_log_faults(&rt);
}
