// Words on file: bad codes at every place, wrong lengths, and the round trip for both kinds of stock.
#![tactic(auto)]

#[cfg(test)]
mod bad_codes;
#[cfg(test)]
mod lengths;
#[cfg(test)]
mod round_trip;
