// Prints the tables of the desk file in standard input.
#![tactic(auto)]

fn main(rt: HostRuntime) {
    print_input::run(&rt);
}
