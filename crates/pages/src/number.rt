// Numbers that can be printed. A page prints each by its value.
ghost use Rattle.std.specs.Prelude.{◌≡◌, ℤ, pos};

// A number whose value 64 bits with a sign hold.
pub trait Number: Copy {
    ghost value: { Self → ℤ };

    fn value(self) -> i64
        ensures { result ≡ value self };
}

impl Number for i8 {
    ghost value = { λ z. z };

    fn value(self) -> i64 {
        i64::from(self)
    }
}

impl Number for i16 {
    ghost value = { λ z. z };

    fn value(self) -> i64 {
        i64::from(self)
    }
}

impl Number for i32 {
    ghost value = { λ z. z };

    fn value(self) -> i64 {
        i64::from(self)
    }
}

impl Number for u32 {
    ghost value = { λ n. pos n };

    fn value(self) -> i64 {
        self as i64
    }
}
