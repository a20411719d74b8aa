// Fragments written and read: how many there are, the standard's example, the order of refusals, edges of reading, collections that are not sound, and long messages
// there and back. The stored output was worked out from docs/RULES.md.
#![tactic(auto)]

mod edges;
mod trips;
mod writing;

fn main(rt: HostRuntime) {
    writing::counts(&rt);
    writing::example(&rt);
    writing::sizes(&rt);
    writing::refusals(&rt);
    edges::begins(&rt);
    edges::inside(&rt);
    edges::unsound(&rt);
    trips::there_and_back(&rt);
}
