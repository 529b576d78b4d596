// zone_lines REGISTER: reads a history file from standard input and prints the zone list of the register.
#![tactic(auto)]

fn main(rt: HostRuntime) {
    if !console::is_given(&rt, 1) || console::is_given(&rt, 2) {
        console::complain(&rt.stderr(), b"usage: zone_lines REGISTER <HISTORY\n");
        return;
    }
    let Some(register) = console::number(&rt, 1) else {
        console::complain(
            &rt.stderr(),
            b"zone_lines: REGISTER is not a decimal number of 64 bits\n",
        );
        return;
    };
    let mut input = [0u8; files::LONGEST];
    let Ok(n) = console::take(&mut rt.stdin(), &mut input) else {
        console::complain(&rt.stderr(), b"zone_lines: standard input cannot be read\n");
        return;
    };
    let mut out = [0u8; 131072];
    let printed = zone_report::zones(&input[..n], register, &mut out);
    console::print(&rt, &rt.stderr(), &out, printed.rows);
}
