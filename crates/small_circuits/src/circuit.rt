use timing::pair::Pair;

// The least plan of a circuit, with domain bytes that make it legal.
#[derive(Clone, Copy)]
pub struct LeastPlan {
    pub period: u32,
    pub offset: u32,
    pub domains: &'static [u8],
}

// The least period of free clock times, with the greatest times none above 0.
#[derive(Clone, Copy)]
pub struct LeastTimes {
    pub period: u32,
    pub times: &'static [i64],
}

// A circuit, and what it yields: no plan where none is legal, no times where none are legal at any period. Pins are bytes,
// 0 early, 1 late, any other free.
#[derive(Clone, Copy)]
pub struct SmallCircuit {
    pub registers: u32,
    pub pairs: &'static [Pair],
    pub pins: &'static [u8],
    pub ceiling: u32,
    pub plan: Option<LeastPlan>,
    pub free: Option<LeastTimes>,
}
