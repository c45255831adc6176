// kcb-list: lists the description in a file or on standard input (document 01, "The lister"): its layout, or the number of its refusal.
#![tactic(auto)]

use streams::tool::Tool;

const LISTER: Tool = Tool {
    name: "kcb-list",
    version: "kcb-list 5.1.0\n",
    help: "usage: kcb-list [FILE]\n\
           Prints where the arguments of the call go that FILE describes (KCB, raw bytes), or why it is refused.\n\
           Without FILE, or where it is -, the description is read from standard input.\n\
           --help     prints this\n\
           --version  prints the version\n",
    usage: "usage: kcb-list [FILE], kcb-list --help or kcb-list --version\n",
};

fn list(rt: &HostRuntime, d: &[u8]) {
    let mut text = [0u8; 8192];
    let end = listing::write_listing(d, &mut text);
    LISTER.print(rt, &text[..end]);
}

fn main(rt: HostRuntime) {
    LISTER.run(&rt, list);
}
