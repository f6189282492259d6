#![tactic(auto)]

use runner::Form;

fn main(rt: HostRuntime) {
    stream::run(rt.stdin(), rt.stdout(), Form::Trace);
}
