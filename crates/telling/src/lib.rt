// What C is told of a proved function's answer (definition and law), and the number of the interface by which it is told.
#![tactic(auto)]

ghost use Rattle.std.specs.Prelude.{◌≡◌};
ghost use Rattle.telling.specs.Version.{interface_version};

pub fn version() -> u32
    ensures { result ≡ interface_version }
{
    7
}
