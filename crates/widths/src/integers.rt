// What every integer type has.
ghost use Rattle.std.specs.Prelude.{ℤ};
ghost use Rattle.std.specs.Int.{Width};

pub trait Integer: Copy {
    ghost width: { Width };

    // The number that a value is.
    ghost whole: { Self → ℤ };
}
