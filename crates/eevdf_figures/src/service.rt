//! What a CPU has given to each unit of weight.

/// Nanoseconds for each unit of weight, in whole ones and in parts of 2^64.
#[derive(Clone, Copy)]
pub(crate) struct Service {
    whole: u64,
    parts: u64,
}

impl Service {
    pub(crate) const NONE: Service = Service { whole: 0, parts: 0 };

    /// Half the digits of a part.
    const HALF: u64 = 1 << 32;

    /// What is too little by less than this, which is a millionth of a nanosecond in parts, is a whole nanosecond. Each tick is cut to a
    /// part, so after 2^21 ticks, more than a history has, a weight, which is below 2^17, lacks 2^38 parts at most.
    const LACKING: u128 = 1 << 44;

    /// After a tick of a CPU with this load.
    pub(crate) fn after(self, ns: u64, load: u64) -> Service {
        if load == 0 {
            return self;
        }
        let parts = self.parts.wrapping_add(parts_of(ns % load, load));
        let carried = u64::from(parts < self.parts);
        Service {
            whole: self.whole.saturating_add(ns / load).saturating_add(carried),
            parts,
        }
    }

    /// What a weight had of it since it was at another value, in nanoseconds, cut.
    pub(crate) fn of_weight(self, then: Service, weight: u64) -> u64 {
        let parts = self.parts.wrapping_sub(then.parts);
        let borrowed = u64::from(self.parts < then.parts);
        let whole = self.whole.saturating_sub(then.whole);
        let whole = whole.saturating_sub(borrowed);
        let parts = u128::from(parts).saturating_mul(u128::from(weight));
        let rest = parts.saturating_add(Service::LACKING) >> 64;
        whole.saturating_mul(weight).saturating_add(rest as u64)
    }
}

/// A fraction below 1, in parts of 2^64, cut. A load is below 2^27, so nothing saturates.
fn parts_of(rest: u64, load: u64) -> u64 {
    if load == 0 {
        return 0;
    }
    let first = rest.saturating_mul(Service::HALF);
    let second = (first % load).saturating_mul(Service::HALF);
    (first / load)
        .saturating_mul(Service::HALF)
        .saturating_add(second / load)
}
