// Prints the sheet of the record on standard input, of which it reads at most 8,192 bytes.
#![tactic(auto)]

fn main(rt: HostRuntime) {
    let mut record = [0u8; 8192];
    let mut out = [0u8; sheets::SHEET_MAX];
    inputs::print_sheet(rt, "plansheet", &mut record, &mut out, sheets::sheet);
}
