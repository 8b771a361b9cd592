// Parameter words (MVT 4.3.2): a step of either sign as a number that is not below zero.
ghost use Rattle.std.specs.Prelude.{◌≡◌};
ghost use Rattle.words.specs.Params.{param, unparam};

#[derive(Clone, Copy)]
pub struct ParamInt {
    pub value: i32,
}

impl ParamInt {
    // At 64 bits twice the least i32 has room.
    pub fn encode(self) -> u32
        ensures { result ≡ param self.value }
    {
        let n = self.value as i64;
        if n >= 0 {
            (2 * n) as u32
        } else {
            (-2 * n - 1) as u32
        }
    }

    pub fn decode(word: u32) -> ParamInt
        ensures { result.value ≡ unparam word }
    {
        let half = (word / 2) as i32;
        if word % 2 == 0 {
            return ParamInt { value: half };
        }
        ParamInt { value: -1 - half }
    }
}
