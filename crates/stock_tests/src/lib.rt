// What drawing and stowing give, by table, for both kinds of stock.
#![tactic(auto)]

#[cfg(test)]
mod counts;
#[cfg(test)]
mod kinds;
#[cfg(test)]
mod lots;
#[cfg(test)]
mod refusal;
