//! Laws of a node's steps, proved where nothing runs.
ghost use Rattle.node_laws.specs.OtherGroups.{CommitsOfNoGroupAreTold, ImagesChangeTheImageAlone, OtherGroupsStay};
ghost use Rattle.node_laws.specs.Rooms.{GroupsAreMadeWhileThereIsRoom};
ghost use Rattle.node_laws.specs.Salts.{GroupsHaveTheNodesSalt};

/// A frame changes no group but the one that its request names, and no group goes.
pub fn other_groups_stay()
    ensures { OtherGroupsStay }
{}

/// A new image changes the image and nothing else.
pub fn images_change_the_image_alone()
    ensures { ImagesChangeTheImageAlone }
{}

/// A commit to a group that isn't there is answered with GROUP_ID_NOT_FOUND for each partition, and changes nothing.
pub fn commits_of_no_group_are_told()
    ensures { CommitsOfNoGroupAreTold }
{}

/// Whatever came to a node since its opening, each of its groups makes ids of the node's salt.
pub fn groups_have_the_nodes_salt()
    ensures { GroupsHaveTheNodesSalt }
{}

/// A node answers for a group that isn't there as a new group does, while it has fewer than 100,000 groups, and then with no success.
pub fn groups_are_made_while_there_is_room()
    ensures { GroupsAreMadeWhileThereIsRoom }
{}
