// kcb-tidy: writes the tidy form (document 02, request 2026-03) of the description in a file or on standard input to standard output.
#![tactic(auto)]

use form::Refusal;
use streams::tool::Tool;

const TIDIER: Tool = Tool {
    name: "kcb-tidy",
    version: "kcb-tidy 5.1.0\n",
    help: "usage: kcb-tidy [FILE]\n\
           Writes the tidy form of the description in FILE (KCB, raw bytes) to standard output, or tells why it is refused.\n\
           Without FILE, or where it is -, the description is read from standard input.\n\
           --help     prints this\n\
           --version  prints the version\n",
    usage: "usage: kcb-tidy [FILE], kcb-tidy --help or kcb-tidy --version\n",
};

// The tidy form, by a buffer of its length: none has more bytes than a description may have.
fn write_tidy<'a>(d: &[u8], space: &'a mut [u8; 586]) -> Result<&'a [u8], Refusal> {
    let length = tidying::tidy_length(d)?;
    let out = &mut space[..length.0];
    tidying::tidy(d, out)?;
    Ok(out)
}

fn tidy(rt: &HostRuntime, d: &[u8]) {
    match write_tidy(d, &mut [0u8; 586]) {
        Ok(out) => TIDIER.print(rt, out),
        Err(refusal) => {
            let _ = eprintln!(rt; "kcb-tidy: {refusal}");
        }
    }
}

fn main(rt: HostRuntime) {
    TIDIER.run(&rt, tidy);
}
