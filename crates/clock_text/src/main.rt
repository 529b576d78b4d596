// clock_text STAMP: prints a stamp as clock time, days:hh:mm:ss.mmm.
#![tactic(auto)]

fn main(rt: HostRuntime) {
    if !console::is_given(&rt, 1) || console::is_given(&rt, 2) {
        console::complain(&rt.stderr(), b"usage: clock_text STAMP\n");
        return;
    }
    let Some(stamp) = console::number(&rt, 1) else {
        console::complain(
            &rt.stderr(),
            b"clock_text: STAMP is not a decimal number of 64 bits\n",
        );
        return;
    };
    // A clock text has at most 24 bytes, and what lies behind it stays as it is: its line feed.
    let mut line = [b'\n'; 25];
    let written = clock::write(stamp, &mut line);
    if written.code != 0 {
        console::complain(
            &rt.stderr(),
            b"clock_text: STAMP is over the largest stamp, 4611686018427387903\n",
        );
        return;
    }
    console::print(&rt, &rt.stderr(), &line, written.rows + 1);
}
