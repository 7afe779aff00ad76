//! Worked rows of the program: words, a descriptor and an input, and the status, the output and the report that follow, over
//! memory. All expected values were worked by hand. Nothing of its own but tests.
#![tactic(auto)]

#[cfg(test)]
mod affine_rows;
#[cfg(test)]
mod bound_rows;
#[cfg(test)]
mod compile_rows;
#[cfg(test)]
mod damage;
#[cfg(test)]
mod decode_rows;
#[cfg(test)]
mod descriptor_rows;
#[cfg(test)]
mod descriptors;
#[cfg(test)]
mod design_rows;
#[cfg(test)]
mod encode_rows;
#[cfg(test)]
mod erase_rows;
#[cfg(test)]
mod fault_rows;
#[cfg(test)]
mod gate;
#[cfg(test)]
mod improved_rows;
#[cfg(test)]
mod large_rows;
#[cfg(test)]
mod member_rows;
#[cfg(test)]
mod packed_rows;
#[cfg(test)]
mod rest_rows;
#[cfg(test)]
mod rig;
#[cfg(test)]
mod salvage_rows;
#[cfg(test)]
mod status_rows;
#[cfg(test)]
mod trial_rows;
#[cfg(test)]
mod turn_rows;
#[cfg(test)]
mod word_rows;
