// Reads a deck from standard input and writes its report, or the number, line and field of what stops it.
#![tactic(auto)]

fn main(rt: HostRuntime) {
    let mut input = [0u8; report::DECK_ROOM];
    let mut buffer = [0u8; report::MAX_REPORT];
    let read = answers::read_input(&mut rt.stdin(), &mut input);
    let told = read.map(|n| report::report_with_room(&input, n, &mut buffer));
    answers::answer(&mut rt.stdout(), &mut rt.stderr(), b"tally", told, &buffer);
}
