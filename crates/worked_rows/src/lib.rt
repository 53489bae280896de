//! Worked rows of the commands, run over memory. There is no product code here.
#![tactic(auto)]

#[cfg(test)]
mod addup_rows;
#[cfg(test)]
mod answering_calls;
#[cfg(test)]
mod certificate_rows;
#[cfg(test)]
mod covering_rows;
#[cfg(test)]
mod crush_rows;
#[cfg(test)]
mod decompose_rows;
#[cfg(test)]
mod describe_rows;
#[cfg(test)]
mod group_rows;
#[cfg(test)]
mod hostile_rows;
#[cfg(test)]
mod info_rows;
#[cfg(test)]
mod lift_rows;
#[cfg(test)]
mod making_rows;
#[cfg(test)]
mod part_rows;
#[cfg(test)]
mod play_rows;
#[cfg(test)]
mod rays_rows;
#[cfg(test)]
mod running;
#[cfg(test)]
mod same_rows;
#[cfg(test)]
mod sig_rows;
#[cfg(test)]
mod surfaces_rows;
#[cfg(test)]
mod usage_rows;
#[cfg(test)]
mod verify_rows;
