//! Worked calls of the crates on cones, rays and surfaces. There is no product code here.
#![tactic(auto)]

#[cfg(test)]
mod cone_core_calls;
#[cfg(test)]
mod double_description_calls;
#[cfg(test)]
mod lazy_columns_calls;
#[cfg(test)]
mod matching_equations_calls;
#[cfg(test)]
mod number_bounds_calls;
#[cfg(test)]
mod public_calls_cone_core;
#[cfg(test)]
mod public_calls_double_description;
#[cfg(test)]
mod public_calls_matching_equations;
#[cfg(test)]
mod public_calls_quad_condition;
#[cfg(test)]
mod public_calls_quad_lift;
#[cfg(test)]
mod public_calls_ray_decompose;
#[cfg(test)]
mod public_calls_support_bits;
#[cfg(test)]
mod public_calls_surface_list;
#[cfg(test)]
mod public_calls_surface_pieces;
#[cfg(test)]
mod public_calls_surface_properties;
#[cfg(test)]
mod quad_condition_calls;
#[cfg(test)]
mod quad_lift_calls;
#[cfg(test)]
mod ray_decompose_calls;
#[cfg(test)]
mod rays_calls;
#[cfg(test)]
mod row_reduction_calls;
#[cfg(test)]
mod sample_cones;
#[cfg(test)]
mod support_bits_calls;
#[cfg(test)]
mod support_table_calls;
#[cfg(test)]
mod surface_list_calls;
#[cfg(test)]
mod surface_pieces_calls;
#[cfg(test)]
mod surface_properties_calls;
