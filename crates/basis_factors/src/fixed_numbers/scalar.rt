/// The numbers that a basis is factored in.
pub trait Scalar: Copy + Drop {
    fn of(number: i32) -> Self;

    fn plus(self, other: Self) -> Self;

    fn minus(self, other: Self) -> Self;

    fn times(self, other: Self) -> Self;

    /// The quotient, or 0 where the divisor is 0.
    fn over(self, divisor: Self) -> Self;

    fn is_zero(self) -> bool;

    /// Whether the number is so small that it counts as 0 where it is left of a difference.
    fn is_tiny(self) -> bool;

    /// How well the number does as a pivot, and 0 where it is 0.
    fn worth(self) -> u64;
}
