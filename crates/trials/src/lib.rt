// Trials of the linker: decks are punched card by card, linked, and the answers held to the rules.
#![tactic(auto)]

#[cfg(test)]
mod bench;
#[cfg(test)]
mod calls;
#[cfg(test)]
mod cards;
#[cfg(test)]
mod cases;
#[cfg(test)]
mod decks;
#[cfg(test)]
mod entries;
#[cfg(test)]
mod flaws;
#[cfg(test)]
mod includes;
#[cfg(test)]
mod layers;
#[cfg(test)]
mod limits;
#[cfg(test)]
mod maps;
#[cfg(test)]
mod names;
#[cfg(test)]
mod punch;
#[cfg(test)]
mod trays;
