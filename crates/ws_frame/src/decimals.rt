//! Decimal digits, two at once.

ghost use Rattle.std.specs.Prelude.{◌≡◌, ◌≤◌, ◌<◌, ◌+◌, ◌++◌, length, decimal};
ghost use Rattle.ws_frame.specs.InnerPrinting.{pair_digits, four_digits};

use crate::room::Room;
use itoa::write_digits;

/// No number has more decimal digits than this.
const DECIMAL: usize = 20;

/// The two digits of each number below a hundred.
static PAIRS: [u8; 200] = *b"0001020304050607080910111213141516171819\
      2021222324252627282930313233343536373839\
      4041424344454647484950515253545556575859\
      6061626364656667686970717273747576777879\
      8081828384858687888990919293949596979899";

impl Room {
    /// Puts a number behind what stands in the room, in decimal digits.
    #[inline(always)]
    pub(crate) fn push_decimal(&mut self, number: u64)
        requires { length self.old + 20 ≤ 2048 }
        ensures pushed { self.new ≡ self.old ++ decimal number }
        ensures len { length self.new ≤ length self.old + 20 }
    {
        if number < 10_000 {
            self.push_1_to_4(number);
        } else {
            self.push_5_to_20_apart(number);
        }
    }

    /// The same of a number that is seldom small: the way of a large one is made a part of the caller too.
    #[inline(always)]
    pub(crate) fn push_large(&mut self, number: u64)
        requires { length self.old + 20 ≤ 2048 }
        ensures pushed { self.new ≡ self.old ++ decimal number }
        ensures len { length self.new ≤ length self.old + 20 }
    {
        if number < 10_000 {
            self.push_1_to_4(number);
        } else {
            self.push_5_to_20(number);
        }
    }

    /// The same of a number of at most four digits.
    #[inline(always)]
    fn push_1_to_4(&mut self, number: u64)
        requires few { number < 10000 }
        requires room { length self.old + 4 ≤ 2048 }
        ensures pushed { self.new ≡ self.old ++ decimal number }
        ensures len { length self.new ≤ length self.old + 4 }
    {
        if number < 100 {
            self.push_1_to_2(number);
        } else {
            self.push_3_to_4(number);
        }
    }

    /// The same of a number of three or four digits.
    #[inline(always)]
    fn push_3_to_4(&mut self, number: u64)
        requires hundreds { 100 ≤ number }
        requires few { number < 10000 }
        requires room { length self.old + 4 ≤ 2048 }
        ensures pushed { self.new ≡ self.old ++ decimal number }
        ensures len { length self.new ≤ length self.old + 4 }
    {
        self.push_1_to_2(number / 100);
        self.push_all_2(number % 100);
    }

    /// The same of a number of one or two digits.
    #[inline(always)]
    fn push_1_to_2(&mut self, number: u64)
        requires few { number < 100 }
        requires room { length self.old + 2 ≤ 2048 }
        ensures pushed { self.new ≡ self.old ++ decimal number }
        ensures len { length self.new ≤ length self.old + 2 }
    {
        if number < 10 {
            self.push(&[b'0' + number as u8]);
        } else {
            self.push_all_2(number);
        }
    }

    /// The same of a number of more than four digits, as a call.
    #[inline(never)]
    fn push_5_to_20_apart(&mut self, number: u64)
        requires many { 10000 ≤ number }
        requires room { length self.old + 20 ≤ 2048 }
        ensures pushed { self.new ≡ self.old ++ decimal number }
        ensures len { length self.new ≤ length self.old + 20 }
    {
        self.push_5_to_20(number);
    }

    /// The same of a number of more than four digits: at most twelve are put without a loop.
    #[inline(always)]
    fn push_5_to_20(&mut self, number: u64)
        requires many { 10000 ≤ number }
        requires room { length self.old + 20 ≤ 2048 }
        ensures pushed { self.new ≡ self.old ++ decimal number }
        ensures len { length self.new ≤ length self.old + 20 }
    {
        if number < 100_000_000 {
            self.push_5_to_8(number);
        } else if number < 1_000_000_000_000 {
            self.push_9_to_12(number);
        } else {
            self.push_1_to_20(number);
        }
    }

    /// The same of a number of five to eight digits.
    #[inline(always)]
    fn push_5_to_8(&mut self, number: u64)
        requires many { 10000 ≤ number }
        requires few { number < 100000000 }
        requires room { length self.old + 8 ≤ 2048 }
        ensures pushed { self.new ≡ self.old ++ decimal number }
        ensures len { length self.new ≤ length self.old + 8 }
    {
        self.push_1_to_4(number / 10_000);
        self.push_all_4(number % 10_000);
    }

    /// The same of a number of nine to twelve digits.
    #[inline(always)]
    fn push_9_to_12(&mut self, number: u64)
        requires many { 100000000 ≤ number }
        requires few { number < 1000000000000 }
        requires room { length self.old + 12 ≤ 2048 }
        ensures pushed { self.new ≡ self.old ++ decimal number }
        ensures len { length self.new ≤ length self.old + 12 }
    {
        self.push_5_to_8(number / 10_000);
        self.push_all_4(number % 10_000);
    }

    /// The same of any number.
    #[inline(never)]
    fn push_1_to_20(&mut self, number: u64)
        requires { length self.old + 20 ≤ 2048 }
        ensures pushed { self.new ≡ self.old ++ decimal number }
        ensures len { length self.new ≤ length self.old + 20 }
    {
        let mut digits = [0; 2 * DECIMAL];
        let start = write_digits(number, &mut digits, DECIMAL);
        self.push_front(&digits[start..start + DECIMAL], DECIMAL - start);
    }

    /// Puts four digits, of a number that may be less than four of them long.
    #[inline(always)]
    fn push_all_4(&mut self, number: u64)
        requires few { number < 10000 }
        requires room { length self.old + 4 ≤ 2048 }
        ensures pushed { self.new ≡ self.old ++ four_digits number }
        ensures len { length self.new ≡ length self.old + 4 }
    {
        self.push_all_2(number / 100);
        self.push_all_2(number % 100);
    }

    /// Puts two digits, of a number that may be one of them long.
    #[inline(always)]
    fn push_all_2(&mut self, number: u64)
        requires few { number < 100 }
        requires room { length self.old + 2 ≤ 2048 }
        ensures pushed { self.new ≡ self.old ++ pair_digits number }
        ensures len { length self.new ≡ length self.old + 2 }
    {
        let place = number as usize * 2;
        self.push(&[PAIRS[place], PAIRS[place + 1]]);
    }
}
