// answers QUESTION ALLOWANCE: reads a history file from standard input and prints what the marking call answers for each of its registers.
#![tactic(auto)]

fn main(rt: HostRuntime) {
    if !console::is_given(&rt, 2) || console::is_given(&rt, 3) {
        console::complain(
            &rt.stderr(),
            b"usage: answers QUESTION ALLOWANCE <HISTORY\n",
        );
        return;
    }
    let Some(question) = console::number(&rt, 1) else {
        console::complain(
            &rt.stderr(),
            b"answers: QUESTION is not a decimal number of 64 bits\n",
        );
        return;
    };
    let Some(allowance) = console::number(&rt, 2) else {
        console::complain(
            &rt.stderr(),
            b"answers: ALLOWANCE is not a decimal number of 64 bits\n",
        );
        return;
    };
    let mut input = [0u8; files::LONGEST];
    let Ok(n) = console::take(&mut rt.stdin(), &mut input) else {
        console::complain(&rt.stderr(), b"answers: standard input cannot be read\n");
        return;
    };
    let mut out = [0u8; 131072];
    let printed = answer_report::road(&input[..n], question, allowance, &mut out);
    console::print(&rt, &rt.stderr(), &out, printed.rows);
}
