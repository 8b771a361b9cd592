// The number of the interface that this archive is of: a program holds it against BP_VERSION of the header that it was compiled with.
ghost use Rattle.std.specs.Prelude.{◌≡◌};
ghost use Rattle.telling.specs.Version.{interface_version};

#[unsafe(no_mangle)]
pub extern "C" fn bp_tiles_version() -> u32
    ensures { result ≡ interface_version }
{
    telling::version()
}
