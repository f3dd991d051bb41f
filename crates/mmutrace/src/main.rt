// Runs a trace: reads records of eight bytes from standard input to its end, and writes a line for each to standard output.
#![tactic(auto)]

use streams::Output;

fn main(rt: HostRuntime) {
    let mut buffer = [0u64; 64];
    let mut words: [u32; 16384] = [0; 16384];
    let mut input = [0u8; tracing::BLOCK];
    let mut out = [0u8; tracing::ROOM];
    let mut output = Output::new(rt.stdout());
    let last = tracing::run(
        &mut rt.stdin(),
        &mut output,
        &mut buffer,
        &mut words,
        &mut input,
        &mut out,
    );
    // Its exit status is 0 all the same.
    let _ = output.say_unless(
        last.written,
        &mut rt.stderr(),
        b"mmutrace: a line can't be written, so the trace ends here\n",
    );
}
