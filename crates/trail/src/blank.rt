// What every entry of a trail has: a value that stands for an empty place. `Default` says of its value only what is true of it, and contracts here need the value.
ghost use Rattle.std.specs.Prelude.{◌≡◌};

pub trait Blank: Copy {
    ghost blank: { Self };

    fn blank() -> Self
        ensures { result ≡ blank };
}
