// Reads a log with named columns from standard input and prints the report of its table. A longer log than 1 MiB is not reported in part.
#![tactic(auto)]

ghost use Rattle.std.specs.Prelude.{◌≡◌, length};

const LONGEST: usize = 1048576;

// Places for the longest log that is read and for one byte more, so that a longer one is seen.
fn buffer() -> [u8; 1048577]
    ensures { 1048577 ≡ length result }
{
    [0; 1048577]
}

fn main(rt: HostRuntime) {
    let mut input = buffer();
    let Ok(n) = console::take(&mut rt.stdin(), &mut input) else {
        console::complain(&rt.stderr(), b"log: standard input cannot be read\n");
        return;
    };
    if LONGEST < n {
        console::complain(
            &rt.stderr(),
            b"log: standard input is longer than 1 MiB, and was not read\n",
        );
        return;
    }
    let mut out = [0u8; 131072];
    let printed = log_report::log(&input[..n], &mut out);
    console::print(&rt, &rt.stderr(), &out, printed.rows);
}
