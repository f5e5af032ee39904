// Prints the sheet of the plan on standard input, where the judge accepts it for the task before it; it reads the first 8,192 bytes.
#![tactic(auto)]

fn main(rt: HostRuntime) {
    let mut input = [0u8; planchecks::INPUT_MAX];
    let mut out = [0u8; sheets::SHEET_MAX];
    inputs::print_sheet(rt, "plancheck", &mut input, &mut out, planchecks::sheet);
}
