//! What a coordinator knows of the topics of its cluster.
//!
//! An [`Image`] has every topic, and a [`View`] those that the members of one group subscribe. An
//! image is made only of a list without a fault, so each topic of an image or of a view has its id
//! for itself and 1 to 100,000 partitions. Start from [`Image::of`].
#![tactic(auto)]

mod draft;
mod image;
mod image_fault;
mod topic;
mod view;
mod view_topic;

pub use group_types::NameSet;
pub use image::Image;
pub use image_fault::ImageFault;
pub use topic::TopicEntry;
pub use view::View;
pub use view_topic::ViewTopic;
