//! Worked calls of the crates on texts and tables. There is no product code here.
#![tactic(auto)]

#[cfg(test)]
mod canonical_labelling_calls;
#[cfg(test)]
mod command_words_calls;
#[cfg(test)]
mod component_signature_calls;
#[cfg(test)]
mod crushing_calls;
#[cfg(test)]
mod double_cover_calls;
#[cfg(test)]
mod edge_group_calls;
#[cfg(test)]
mod finite_walks_calls;
#[cfg(test)]
mod gluing_table_calls;
#[cfg(test)]
mod labelling_walk_calls;
#[cfg(test)]
mod move_undo_calls;
#[cfg(test)]
mod pachner_moves_calls;
#[cfg(test)]
mod perm_four_calls;
#[cfg(test)]
mod public_calls_bench_io;
#[cfg(test)]
mod public_calls_canonical_labelling;
#[cfg(test)]
mod public_calls_command_words;
#[cfg(test)]
mod public_calls_component_signature;
#[cfg(test)]
mod public_calls_crushing;
#[cfg(test)]
mod public_calls_double_cover;
#[cfg(test)]
mod public_calls_edge_group;
#[cfg(test)]
mod public_calls_gluing_table;
#[cfg(test)]
mod public_calls_move_undo;
#[cfg(test)]
mod public_calls_pachner_moves;
#[cfg(test)]
mod public_calls_perm_four;
#[cfg(test)]
mod public_calls_signature_census;
#[cfg(test)]
mod public_calls_signature_codec;
#[cfg(test)]
mod public_calls_skeleton;
#[cfg(test)]
mod public_calls_sphere_certificate;
#[cfg(test)]
mod public_calls_tri_build;
#[cfg(test)]
mod public_calls_vertex_links;
#[cfg(test)]
mod sample_tables;
#[cfg(test)]
mod signature_census_calls;
#[cfg(test)]
mod signature_codec_calls;
#[cfg(test)]
mod skeleton_calls;
#[cfg(test)]
mod sphere_certificate_calls;
#[cfg(test)]
mod text_io_calls;
#[cfg(test)]
mod tri_build_calls;
#[cfg(test)]
mod vertex_links_calls;
