// Mends the record on standard input onto standard output, and tells on standard error what was mended. The longest record that can be mended has 65,808
// bytes; one
// byte more is read, since that shows 9.
#![tactic(auto)]

use std::io::Write;

// So many bytes hold every mended record.
const RECORD_MAX: usize = 4_361;

fn main(rt: HostRuntime) {
    let mut given = [0u8; 65_809];
    let mut bytes = [0u8; RECORD_MAX];
    let mut out = [0u8; sheets::SHEET_MAX];
    let Some(got) = inputs::read_input(&mut rt.stdin(), &mut given) else {
        eprintln!(rt; "mend: standard input cannot be read").ok();
        return;
    };
    let mending = menders::mend(&given[..got], &mut bytes);
    let count = mendlines::line(mending, &mut out);
    rt.stdout()
        .write_all(&bytes[..mending.answer.value as usize])
        .ok();
    rt.stderr().write_all(&out[..count]).ok();
}
