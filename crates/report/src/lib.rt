// What the programs print. No contract of the kit can say what is written: each function returns nothing, and alters nothing that it is lent.
// A write that fails is passed over.
#![tactic(auto)]

ghost use Rattle.std.specs.Prelude.{◌≡◌};

use std::fmt::Display;

pub fn text(rt: &impl Print, t: &[u8])
    ensures { result ≡ tt }
{
    let _ = rt.write_all(t);
}

pub fn hex(rt: &impl Print, data: &[u8])
    ensures { result ≡ tt }
{
    for byte in data {
        print(rt, format_args!("{byte:02x}"));
    }
}

pub fn print<D: Display + Drop>(rt: &impl Print, value: D)
    ensures { result ≡ tt }
{
    let _ = rt.print(value);
}
