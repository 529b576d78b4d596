// exam REGISTER K ORDERFILE: what bench prints with 524,800 trials allowed, and the check of the order in the file.
#![tactic(auto)]

use console::ListFault;

fn main(rt: HostRuntime) {
    if !console::is_given(&rt, 3) || console::is_given(&rt, 4) {
        console::complain(&rt.stderr(), b"usage: exam REGISTER K ORDERFILE <HISTORY\n");
        return;
    }
    let Some(register) = console::number(&rt, 1) else {
        console::complain(
            &rt.stderr(),
            b"exam: REGISTER is not a decimal number of 64 bits\n",
        );
        return;
    };
    let Some(k) = console::number(&rt, 2) else {
        console::complain(
            &rt.stderr(),
            b"exam: K is not a decimal number of 64 bits\n",
        );
        return;
    };
    let mut list = [0u64; 1025];
    let rows = match console::take_rows(&rt, 3, &mut list) {
        Ok(rows) => rows,
        Err(ListFault::Unreadable) => {
            console::complain(&rt.stderr(), b"exam: ORDERFILE cannot be read\n");
            return;
        }
        Err(ListFault::Unsound) => {
            console::complain(
                &rt.stderr(),
                b"exam: ORDERFILE is not a list of row numbers, one a line\n",
            );
            return;
        }
    };
    let mut input = [0u8; files::LONGEST];
    let Ok(n) = console::take(&mut rt.stdin(), &mut input) else {
        console::complain(&rt.stderr(), b"exam: standard input cannot be read\n");
        return;
    };
    let mut out = [0u8; 65536];
    let printed = file_sheets::exam(&input[..n], register, k, &list[..rows], &mut out);
    console::print(&rt, &rt.stderr(), &out, printed.rows);
}
